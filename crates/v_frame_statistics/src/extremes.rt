//! The minimum and the maximum of the pixels of a plane.
ghost use Rattle.v_frame.specs.Prelude.{row_major, table_of};
ghost use Rattle.v_frame_statistics.specs.Extremes.{IsGreatest, IsLeast};

use crate::rows;
use v_frame::pixel::Pixel;
use v_frame::plane::PlaneRef;

/// Returns the visible pixel with the smallest value.
pub fn minimum<T: Pixel>(plane: &PlaneRef<'_, T>) -> T
    ensures { IsLeast T.form.value (row_major (table_of plane.now)) result }
{
    rows::minimum(&plane.as_rows_ref())
}

/// Returns the visible pixel with the largest value.
pub fn maximum<T: Pixel>(plane: &PlaneRef<'_, T>) -> T
    ensures { IsGreatest T.form.value (row_major (table_of plane.now)) result }
{
    rows::maximum(&plane.as_rows_ref())
}

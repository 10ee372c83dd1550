//! Sums and extremes of a plane in one pass.
ghost use Rattle.std.specs.Prelude.{◌≡◌, ◌*◌, ◌<◌, length};
ghost use Rattle.v_frame.specs.Prelude.{row_major, table_of};
ghost use Rattle.v_frame_statistics.specs.Extremes.{IsGreatest, IsLeast};
ghost use Rattle.v_frame_statistics.specs.Sums.{sum_of_squares, sum_of_values};

use crate::rows;
use crate::rows::PictureStatistics;
use v_frame::pixel::Pixel;
use v_frame::plane::PlaneRef;

/// Returns the sums from which the mean and the variance of the visible pixels are computed, and their minimum and maximum.
/// Each row is read once.
pub fn statistics<T: Pixel>(plane: &PlaneRef<'_, T>) -> PictureStatistics<T>
    ensures sum { result.sum ≡ sum_of_values T.form.value (row_major (table_of plane.now)) }
    ensures squares { result.sum_of_squares ≡ sum_of_squares T.form.value (row_major (table_of plane.now)) }
    ensures count { result.count ≡ length (row_major (table_of plane.now)) }
    ensures size { result.count ≡ plane.now.geometry.height * plane.now.geometry.width }
    ensures positive { 0 < result.count }
    ensures minimum { IsLeast T.form.value (row_major (table_of plane.now)) result.minimum }
    ensures maximum { IsGreatest T.form.value (row_major (table_of plane.now)) result.maximum }
{
    rows::statistics(&plane.as_rows_ref())
}

//! Sums of the values of a plane and of their squares, from which the mean and the variance are computed.
ghost use Rattle.std.specs.Prelude.{◌≡◌, ◌*◌, ◌<◌, ◌≤◌, length};
ghost use Rattle.v_frame.specs.Prelude.{row_major, table_of};
ghost use Rattle.v_frame_statistics.specs.Sums.{sum_of_squares, sum_of_values};

use crate::rows;
use crate::rows::{SumAndCount, VarianceSums};
use v_frame::pixel::Pixel;
use v_frame::plane::PlaneRef;

/// Returns the sum of the values of all visible pixels. The sum is exact and never overflows.
pub fn sum<T: Pixel>(plane: &PlaneRef<'_, T>) -> u128
    ensures value { result ≡ sum_of_values T.form.value (row_major (table_of plane.now)) }
    ensures bound { result ≤ 65536 * (plane.now.geometry.height * plane.now.geometry.width) }
{
    rows::sum(&plane.as_rows_ref())
}

/// Returns the sum of the values of all visible pixels and their number. The quotient of the two is the mean.
pub fn sum_and_count<T: Pixel>(plane: &PlaneRef<'_, T>) -> SumAndCount
    ensures sum { result.sum ≡ sum_of_values T.form.value (row_major (table_of plane.now)) }
    ensures count { result.count ≡ length (row_major (table_of plane.now)) }
    ensures size { result.count ≡ plane.now.geometry.height * plane.now.geometry.width }
    ensures positive { 0 < result.count }
{
    rows::sum_and_count(&plane.as_rows_ref())
}

/// Returns the sums from which the variance of the visible pixels is computed: `sum_of_squares / count - (sum / count)^2`.
pub fn variance_sums<T: Pixel>(plane: &PlaneRef<'_, T>) -> VarianceSums
    ensures sum { result.sum ≡ sum_of_values T.form.value (row_major (table_of plane.now)) }
    ensures squares { result.sum_of_squares
        ≡ sum_of_squares T.form.value (row_major (table_of plane.now)) }
    ensures count { result.count ≡ length (row_major (table_of plane.now)) }
    ensures size { result.count ≡ plane.now.geometry.height * plane.now.geometry.width }
    ensures positive { 0 < result.count }
{
    rows::variance_sums(&plane.as_rows_ref())
}

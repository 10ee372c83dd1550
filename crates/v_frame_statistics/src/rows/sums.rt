//! Sums of values and of their squares, from which the mean and the variance are computed.
ghost use Rattle.std.specs.Prelude.{◌≡◌, ◌*◌, ◌<◌, ◌≤◌, length};
ghost use Rattle.v_frame.specs.Prelude.{height_of, row_major, width_of};
ghost use Rattle.v_frame_statistics.specs.Sums.{sum_of_squares, sum_of_values};

use crate::row_sums::{sums_of_row, values_of_row};
use v_frame::pixel::Pixel;
use v_frame::plane::RowsRef;

/// The sum of the values of a picture and their number. The mean is `sum / count`.
#[derive(Clone, Copy, Debug, PartialEq, Eq)]
pub struct SumAndCount {
    /// The sum of all values.
    pub sum: u128,
    /// The number of pixels, which is never zero.
    pub count: usize,
}

/// The sums from which the variance of a picture is computed: `sum_of_squares / count - (sum / count)^2`.
#[derive(Clone, Copy, Debug, PartialEq, Eq)]
pub struct VarianceSums {
    /// The sum of all values.
    pub sum: u128,
    /// The sum of the squares of all values.
    pub sum_of_squares: u128,
    /// The number of pixels, which is never zero.
    pub count: usize,
}

/// Returns the sum of all values. The sum is exact and never overflows.
pub fn sum<T: Pixel>(rows: &RowsRef<'_, T>) -> u128
    ensures value { result ≡ sum_of_values T.form.value (row_major rows.now) }
    ensures bound { result ≤ 65536 * (height_of rows.now * width_of rows.now) }
{
    let mut sum = 0;
    for y in 0..rows.height() {
        sum += values_of_row(rows.visible_row(y));
    }
    sum
}

/// Returns the sum of all values and the number of pixels. Their quotient is the mean.
pub fn sum_and_count<T: Pixel>(rows: &RowsRef<'_, T>) -> SumAndCount
    ensures sum { result.sum ≡ sum_of_values T.form.value (row_major rows.now) }
    ensures count { result.count ≡ length (row_major rows.now) }
    ensures size { result.count ≡ height_of rows.now * width_of rows.now }
    ensures positive { 0 < result.count }
{
    SumAndCount {
        sum: sum(rows),
        count: pixel_count(rows),
    }
}

/// Returns the sums from which the variance is computed: `sum_of_squares / count - (sum / count)^2`.
pub fn variance_sums<T: Pixel>(rows: &RowsRef<'_, T>) -> VarianceSums
    ensures sum { result.sum ≡ sum_of_values T.form.value (row_major rows.now) }
    ensures squares { result.sum_of_squares ≡ sum_of_squares T.form.value (row_major rows.now) }
    ensures count { result.count ≡ length (row_major rows.now) }
    ensures size { result.count ≡ height_of rows.now * width_of rows.now }
    ensures positive { 0 < result.count }
{
    let (mut sum, mut sum_of_squares) = (0, 0);
    for y in 0..rows.height() {
        let here = sums_of_row(rows.visible_row(y));
        sum += here.values;
        sum_of_squares += here.squares;
    }
    VarianceSums {
        sum,
        sum_of_squares,
        count: pixel_count(rows),
    }
}

/// Returns the number of pixels.
pub(crate) fn pixel_count<T>(rows: &RowsRef<'_, T>) -> usize
    ensures value { result ≡ length (row_major rows.now) }
    ensures sizes { result ≡ height_of rows.now * width_of rows.now }
    ensures positive { 0 < result }
{
    rows.height() * rows.width()
}

//! Sums and extremes in one pass.
ghost use Rattle.std.specs.Prelude.{◌≡◌, ◌*◌, ◌<◌, length};
ghost use Rattle.v_frame.specs.Prelude.{height_of, row_major, width_of};
ghost use Rattle.v_frame_statistics.specs.Extremes.{IsGreatest, IsLeast};
ghost use Rattle.v_frame_statistics.specs.Sums.{sum_of_squares, sum_of_values};

use super::extremes::{extremes_of_row, greater, lesser};
use super::sums::pixel_count;
use crate::row_sums::sums_of_row;
use v_frame::pixel::Pixel;
use v_frame::plane::RowsRef;

/// The sums of the values of a picture, with their minimum and maximum.
#[derive(Clone, Copy, Debug, PartialEq, Eq)]
pub struct PictureStatistics<T> {
    /// The sum of all values.
    pub sum: u128,
    /// The sum of the squares of all values.
    pub sum_of_squares: u128,
    /// The number of pixels, which is never zero.
    pub count: usize,
    /// The pixel with the smallest value.
    pub minimum: T,
    /// The pixel with the largest value.
    pub maximum: T,
}

/// Returns the sums from which the mean and the variance are computed, and the minimum and the maximum. Each row is read once.
pub fn statistics<T: Pixel>(rows: &RowsRef<'_, T>) -> PictureStatistics<T>
    ensures sum { result.sum ≡ sum_of_values T.form.value (row_major rows.now) }
    ensures squares { result.sum_of_squares ≡ sum_of_squares T.form.value (row_major rows.now) }
    ensures count { result.count ≡ length (row_major rows.now) }
    ensures size { result.count ≡ height_of rows.now * width_of rows.now }
    ensures positive { 0 < result.count }
    ensures minimum { IsLeast T.form.value (row_major rows.now) result.minimum }
    ensures maximum { IsGreatest T.form.value (row_major rows.now) result.maximum }
{
    let count = pixel_count(rows);
    let row = rows.visible_row(0);
    let (sums, extremes) = (sums_of_row(row), extremes_of_row(row));
    let (mut sum, mut sum_of_squares) = (sums.values, sums.squares);
    let (mut minimum, mut maximum) = (extremes.least, extremes.greatest);
    for y in 1..rows.height() {
        let row = rows.visible_row(y);
        let here = sums_of_row(row);
        sum += here.values;
        sum_of_squares += here.squares;
        let extremes = extremes_of_row(row);
        minimum = lesser(minimum, extremes.least);
        maximum = greater(maximum, extremes.greatest);
    }
    PictureStatistics {
        sum,
        sum_of_squares,
        count,
        minimum,
        maximum,
    }
}

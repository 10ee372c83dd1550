//! The measures for pictures whose rows are in a buffer outside a plane.
ghost use Rattle.std.specs.Prelude.{◌≡◌, ◌≤◌, ◌↔◌, IfSome, IsSome, nat_lt};
ghost use Rattle.std.specs.Int.{abs_diff};
ghost use Rattle.v_frame.specs.Prelude.{height_of, row_major, width_of};
ghost use Rattle.v_frame_statistics.specs.Prelude.{passing_pairs};
ghost use Rattle.v_frame_measures.specs.Differences.{IsGreatestDifference};
ghost use Rattle.v_frame_measures.specs.Errors.{mean_error};
ghost use Rattle.v_frame_measures.specs.Ssim.{peak_of, ssim_of};

use crate::differences::{GreatestDifference, difference_of, greatest_difference_of_rows};
use crate::errors::mean_squared_error_of_rows;
use crate::similarity::mean_similarity;
use v_frame::pixel::Pixel;
use v_frame::plane::RowsRef;
use v_frame_statistics::rows::count_pairs;

/// Returns the mean squared error (MSE) of two pictures of the same size: the sum of the squared differences of their pixels,
/// divided by the number of pixels. The sum is exact. The sum and the number of pixels are each rounded to the nearest `f64`,
/// and so is the quotient.
pub fn mean_squared_error<T: Pixel>(a: &RowsRef<'_, T>, b: &RowsRef<'_, T>) -> f64
    requires wide { width_of a.now ≡ width_of b.now }
    requires high { height_of a.now ≡ height_of b.now }
    ensures { result ≡ mean_error T.form.value a.now b.now }
{
    mean_squared_error_of_rows(a, b)
}

/// Returns the structural similarity (SSIM) of two pictures of the same size whose samples have `bit_depth` bits. A `bit_depth`
/// above 16 counts as 16.
///
/// The result is the mean over windows of 8 by 8 pixels at every fourth column and row. Returns `None` if and only if the width
/// or the height is below 8. If `bit_depth` is from 0 to 3, the result may be NaN, as
/// [`ssim`](crate::ssim) of planes describes.
pub fn ssim<T: Pixel>(a: &RowsRef<'_, T>, b: &RowsRef<'_, T>, bit_depth: u8) -> Option<f64>
    requires wide { width_of a.now ≡ width_of b.now }
    requires high { height_of a.now ≡ height_of b.now }
    ensures some { IsSome result ↔ ((8 ≤ width_of a.now) × (8 ≤ height_of a.now)) }
    ensures value { IfSome result (λ ssim. ssim ≡ ssim_of T.form (peak_of bit_depth) a.now b.now) }
{
    if a.width() < 8 || a.height() < 8 {
        return None;
    }
    Some(mean_similarity(a, b, bit_depth))
}

/// Returns the largest absolute difference between the pixels of `a` and `b`, and the first position that has it. Both pictures
/// have the same size. Positions are ordered from left to right within a row and from top to bottom.
pub fn greatest_difference<T: Pixel>(a: &RowsRef<'_, T>, b: &RowsRef<'_, T>) -> GreatestDifference
    requires wide { width_of a.now ≡ width_of b.now }
    requires high { height_of a.now ≡ height_of b.now }
    ensures { IsGreatestDifference T.form.value a.now b.now result }
{
    greatest_difference_of_rows(a, b)
}

/// Returns the number of pixels whose values differ by more than `threshold` between `a` and `b`. Both pictures have the same
/// size.
pub fn count_above<T: Pixel>(a: &RowsRef<'_, T>, b: &RowsRef<'_, T>, threshold: u16) -> usize
    requires wide { width_of a.now ≡ width_of b.now }
    requires high { height_of a.now ≡ height_of b.now }
    ensures { result ≡ passing_pairs
        (λ p q. nat_lt threshold (abs_diff (T.form.value p) (T.form.value q)))
        (row_major a.now) (row_major b.now) }
{
    count_pairs(a, b, |p, q| difference_of(p, q) > threshold)
}

//! The mean squared error (MSE) and the peak signal-to-noise ratio (PSNR).
ghost use Rattle.std.specs.Prelude.{◌≡◌, ◌*◌, pos};
ghost use Rattle.std.specs.Float.Ieee.{binary64, div, of_int};
ghost use Rattle.v_frame.specs.Prelude.{height_of, table_of, width_of};
ghost use Rattle.v_frame_measures.specs.Ssim.{peak_of};
ghost use Rattle.v_frame_measures.specs.Errors.{mean_error};

use crate::casts::nearest_f64;
use v_frame::pixel::Pixel;
use v_frame::plane::{PlaneRef, RowsRef};
use v_frame_ops::rows::sum_of_squared_errors;

/// Returns the mean squared error (MSE) of two planes of the same size: the sum of the squared differences of their visible
/// pixels, divided by the number of pixels. The sum is exact. The sum and the number of pixels are each rounded to the nearest
/// `f64`, and so is the quotient.
pub fn mean_squared_error<T: Pixel>(a: &PlaneRef<'_, T>, b: &PlaneRef<'_, T>) -> f64
    requires wide { a.now.geometry.width ≡ b.now.geometry.width }
    requires high { a.now.geometry.height ≡ b.now.geometry.height }
    ensures { result ≡ mean_error T.form.value (table_of a.now) (table_of b.now) }
{
    mean_squared_error_of_rows(&a.as_rows_ref(), &b.as_rows_ref())
}

/// Returns the mean squared error of two pictures of the same size.
pub(crate) fn mean_squared_error_of_rows<T: Pixel>(a: &RowsRef<'_, T>, b: &RowsRef<'_, T>) -> f64
    requires wide { width_of a.now ≡ width_of b.now }
    requires high { height_of a.now ≡ height_of b.now }
    ensures { result ≡ mean_error T.form.value a.now b.now }
{
    let pixels = a.width() as u128 * a.height() as u128;
    nearest_f64(sum_of_squared_errors(a, b)) / nearest_f64(pixels)
}

/// Returns `peak^2 / mean_squared_error`, where `peak` is `2^bit_depth - 1`, the largest value of the bit depth. The PSNR is
/// this ratio in decibels.
///
/// The ratio is infinite if the error is zero. A `bit_depth` above 16 counts as 16. At a `bit_depth` of 0 an error of zero
/// gives NaN.
pub fn peak_ratio(mean_squared_error: f64, bit_depth: u8) -> f64
    ensures { result ≡ div binary64
        (of_int binary64 (pos (peak_of bit_depth * peak_of bit_depth))) mean_squared_error }
{
    let peak: u128 = (1 << bit_depth.min(16)) - 1;
    nearest_f64(peak * peak) / mean_squared_error
}

/// Returns the peak signal-to-noise ratio (PSNR) in decibels, `10 * log10(peak^2 / mean_squared_error)`, where `peak` is
/// `2^bit_depth - 1`. The ratio inside the logarithm is [`peak_ratio`]. The result is infinite if the error is zero.
pub fn psnr(mean_squared_error: f64, bit_depth: u8) -> f64 {
    10.0 * peak_ratio(mean_squared_error, bit_depth).log10()
}

//! The structural similarity (SSIM) of two pictures.
ghost use Rattle.std.specs.Prelude.{◌≡◌, ◌+◌, ◌-◌, ◌*◌, ◌/◌, ◌<◌, ◌≤◌, ◌↔◌, ◌^◌, IfSome, IsSome, length, min};
ghost use Rattle.v_frame.specs.Prelude.{height_of, table_of, width_of};
ghost use Rattle.v_frame_measures.specs.Ssim.{line_format, line_of, peak_of, ssim_of};

mod blocks;
mod columns;
mod lanes;
mod line_sum;
mod lines;
mod narrow;
mod sums;
mod window;

use crate::rows;
use line_sum::LineSum;
use lines::sums_of_lines;
use narrow::bits_of_rows;
use std::num::nearest_u64_to_f64;
use sums::sums_of_columns;
use v_frame::pixel::Pixel;
use v_frame::plane::{PlaneRef, RowsRef};
use window::{SsimConstants, similarity};

/// Returns the structural similarity (SSIM, Wang et al. 2004) of two planes of the same size whose samples have `bit_depth`
/// bits. A `bit_depth` above 16 counts as 16.
///
/// The function follows FFmpeg's filter `ssim`: the result is the mean over windows of 8 by 8 pixels at every fourth column and
/// row, and all pixels of a window have the same weight.
///
/// Returns `None` if and only if the width or the height is below 8, because no window fits. For these sizes FFmpeg divides by
/// zero or prints 0.
///
/// If `bit_depth` is from 0 to 3 and a window is black in both planes, or if `bit_depth` is 0 and a window has only one value in
/// each plane, the result is NaN: the constants that keep divisors away from zero are rounded to integers, which are 0 then.
pub fn ssim<T: Pixel>(a: &PlaneRef<'_, T>, b: &PlaneRef<'_, T>, bit_depth: u8) -> Option<f64>
    requires wide { a.now.geometry.width ≡ b.now.geometry.width }
    requires high { a.now.geometry.height ≡ b.now.geometry.height }
    ensures some { IsSome result
        ↔ ((8 ≤ a.now.geometry.width) × (8 ≤ a.now.geometry.height)) }
    ensures value { IfSome result (λ ssim.
        ssim ≡ ssim_of T.form (peak_of bit_depth) (table_of a.now) (table_of b.now)) }
{
    rows::ssim(&a.as_rows_ref(), &b.as_rows_ref(), bit_depth)
}

/// Returns the mean similarity over the windows of two pictures of the same size, which are at least 8 by 8 pixels.
pub(crate) fn mean_similarity<T: Pixel>(
    a: &RowsRef<'_, T>,
    b: &RowsRef<'_, T>,
    bit_depth: u8,
) -> f64
    requires wide { width_of a.now ≡ width_of b.now }
    requires high { height_of a.now ≡ height_of b.now }
    requires across { 8 ≤ width_of a.now }
    requires down { 8 ≤ height_of a.now }
    ensures { result ≡ ssim_of T.form (peak_of bit_depth) a.now b.now }
{
    if T::BYTES == 1 {
        mean_in::<T, f64>(a, b, bit_depth, &mut [0.0; 32])
    } else {
        mean_in::<T, f32>(a, b, bit_depth, &mut [0.0; 32])
    }
}

/// Returns the mean similarity over the windows, with the windows of a line added as numbers of the type `F`. `sums` holds the
/// sums of up to 32 lines in between.
fn mean_in<T: Pixel, F: LineSum>(
    a: &RowsRef<'_, T>,
    b: &RowsRef<'_, T>,
    bit_depth: u8,
    sums: &mut [F],
) -> f64
    requires wide { width_of a.now ≡ width_of b.now }
    requires high { height_of a.now ≡ height_of b.now }
    requires across { 8 ≤ width_of a.now }
    requires down { 8 ≤ height_of a.now }
    requires format { F.format ≡ line_format T.form.size }
    requires room { length sums.old ≡ 32 }
    ensures { result ≡ ssim_of T.form (peak_of bit_depth) a.now b.now }
{
    let (across, down) = (a.width() / 4 - 1, a.height() / 4 - 1);
    let constants = SsimConstants::of_depth(bit_depth);
    let most = bits_of_rows(a) | bits_of_rows(b);
    let narrow = if most < 8192 && across >= 8 { down } else { 0 };
    let mut sum = 0.0;
    for band in 0..(narrow + 31) / 32 {
        let y = 32 * band;
        let count = (narrow - y).min(32);
        sums_of_lines::<T, F>(a, b, most, &constants, y, count, sums);
        for k in 0..count {
            sum += sums[k].into_f64();
        }
    }
    for y in narrow..down {
        sum += line_in::<T, F>(a, b, &constants, y).into_f64();
    }
    sum / nearest_u64_to_f64((across * down) as u64)
}

/// Returns the sum of the similarities over line `y` of windows, added as numbers of the type `F`.
fn line_in<T: Pixel, F: LineSum>(
    a: &RowsRef<'_, T>,
    b: &RowsRef<'_, T>,
    constants: &SsimConstants,
    y: usize,
) -> F
    requires wide { width_of a.now ≡ width_of b.now }
    requires high { height_of a.now ≡ height_of b.now }
    requires across { 8 ≤ width_of a.now }
    requires down { 4 * y + 8 ≤ height_of a.now }
    requires means { constants.now.means < 2 ^ 40 }
    requires variances { constants.now.variances < 2 ^ 40 }
    ensures { F.float result ≡ line_of T.form constants.now a.now b.now F.format y }
{
    let columns = a.width();
    // These calls are needed only for their contracts, which the proof uses.
    let _other = b.width();
    let _height = a.height();
    let mut sum = F::zero();
    let mut left = sums_of_columns(a, b, 0, 4 * y);
    for x in 0..columns / 4 - 1 {
        let right = sums_of_columns(a, b, 4 * x + 4, 4 * y);
        sum = sum.with_window(similarity(constants, &left.plus(&right)));
        left = right;
    }
    sum
}

//! The similarities of eight windows of bytes at once, in vectors of 32-bit lanes.
ghost use Rattle.std.specs.Prelude.{◌≡◌, ◌+◌, ◌≤◌, ◌<◌, ◌^◌, ◌-ℤ◌, ℕ, List, map, pos, slice_index};
ghost use Rattle.std.specs.List.{range_with_len};
ghost use Rattle.std.specs.Simd.Lanes.{Each1, zip2};
ghost use Rattle.std.specs.Float.Ieee.{binary32, of_int};
ghost use Rattle.v_frame_measures.specs.BlockSums.{AreSumsOfBytes, window_sum};
ghost use Rattle.v_frame_measures.specs.Ssim.{similarity_of};
ghost use Rattle.v_frame_measures.specs.declared.similarity.sums.PixelSums.{PixelSums};

use crate::similarity::window::SsimConstants;
use std::simd::{f32x8, u32x8};

/// Returns the sums over eight windows from index `k` on. Each is the sum of two adjacent entries of `above` and the two
/// entries of `below` at the same indexes.
#[inline(always)]
pub(crate) fn sums_of_windows(above: &[u32; 128], below: &[u32; 128], k: usize) -> u32x8
    requires inside { k + 8 < 128 }
    ensures { ((j : ℕ) → k ≤ j → j < k + 8 → window_sum above.now below.now j < 2 ^ 32)
        → result ≡ map (window_sum above.now below.now) (range_with_len k 8) }
{
    let left = u32x8::from_slice(&above[k..k + 8]) + u32x8::from_slice(&below[k..k + 8]);
    let right = u32x8::from_slice(&above[k + 1..k + 9]) + u32x8::from_slice(&below[k + 1..k + 9]);
    left + right
}

/// Returns the similarities of eight windows of bytes from the sums over these windows.
#[inline(always)]
pub(crate) fn similarities_of_bytes(
    constants: &SsimConstants,
    first: u32x8,
    second: u32x8,
    squares: u32x8,
    products: u32x8,
) -> f32x8
    requires means { constants.now.means < 2 ^ 29 }
    requires variances { constants.now.variances < 2 ^ 29 }
    ensures { (windows : List PixelSums) → Each1 AreSumsOfBytes windows
        → first ≡ map (λ (w : PixelSums). w.first) windows
        → second ≡ map (λ (w : PixelSums). w.second) windows
        → squares ≡ map (λ (w : PixelSums). w.squares) windows
        → products ≡ map (λ (w : PixelSums). w.products) windows
        → result ≡ map (similarity_of constants.now) windows }
{
    // The mask shows the compiler that the sums fit 15 bits.
    let (a, b) = (first & u32x8::splat(0x7fff), second & u32x8::splat(0x7fff));
    let of_means = u32x8::splat(constants.means as u32);
    let of_variances = u32x8::splat(constants.variances as u32);
    let product = (a * b) << 1;
    let both = a * a + b * b;
    let means = nearest_f32s(product + of_means);
    let covariance = nearest_f32s_to_differences((products << 7) + of_variances, product);
    let mean_squares = nearest_f32s(both + of_means);
    let variances = nearest_f32s_to_differences((squares << 6) + of_variances, both);
    means * covariance / (mean_squares * variances)
}

/// Returns the `f32` nearest to each number. A number is split into two parts that convert exactly, and their sum is rounded
/// once.
#[inline(always)]
fn nearest_f32s(numbers: u32x8) -> f32x8
    ensures { result ≡ map (λ n. of_int binary32 (pos n)) numbers }
{
    let high = (numbers >> 16).cast::<f32>() * f32x8::splat(65536.0);
    high + (numbers & u32x8::splat(0xffff)).cast::<f32>()
}

/// Returns the `f32` nearest to each difference `numbers - less`, which may be negative.
#[inline(always)]
fn nearest_f32s_to_differences(numbers: u32x8, less: u32x8) -> f32x8
    ensures { result ≡ zip2 (λ a b. of_int binary32 (pos a -ℤ pos b)) numbers less }
{
    let sizes = nearest_f32s(numbers.abs_diff(less));
    numbers.simd_ge(less).select(sizes, -sizes)
}

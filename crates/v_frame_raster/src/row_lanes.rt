//! Sums over two rows of two-byte pixels. Each lane of a vector is a partial sum, and the lanes are added once at the end of a
//! row.
//!
//! In a large plane, the rows of a block lie far apart in memory. The processor prefetches them well if the code runs a short
//! loop over each row. Code that reads a whole row at once takes up to four times as long.
ghost use Rattle.std.specs.Prelude.{◌≡◌, ◌≤◌, length, take, sum_by, zip, IsTrue};
ghost use Rattle.std.specs.Int.{abs_diff};
ghost use Rattle.std.specs.Simd.Lanes.{zip2};
ghost use Rattle.v_frame_raster.specs.PixelRows.{squared_error};

use std::simd::{Simd, u32x8};

/// Returns whether a row of `len` pixels belongs to a larger block, with up to the 128 columns of AV1's largest block. Longer
/// rows are prefetched in any case, and pieces of 32 pixels are faster for them.
#[inline(always)]
pub fn is_of_larger_block(len: usize) -> bool
    ensures { IsTrue result → len ≤ 65536 }
{
    16 < len && len <= 128
}

/// Returns the absolute differences of the first 8 pixels of two rows.
#[inline(always)]
fn differences(a: &[u16], b: &[u16]) -> u32x8
    requires first { 8 ≤ length a.now }
    requires second { 8 ≤ length b.now }
    ensures { result ≡ zip2 abs_diff (take 8 a.now) (take 8 b.now) }
{
    Simd::<u16, 8>::from_slice(a)
        .abs_diff(Simd::<u16, 8>::from_slice(b))
        .cast::<u32>()
}

/// Returns the squared differences of the first 8 pixels of two rows.
#[inline(always)]
fn squares(a: &[u16], b: &[u16]) -> Simd<u64, 8>
    requires first { 8 ≤ length a.now }
    requires second { 8 ≤ length b.now }
    ensures { result ≡ zip2 squared_error (take 8 a.now) (take 8 b.now) }
{
    let differences = differences(a, b);
    (differences * differences).cast::<u64>()
}

/// Returns the sum of the absolute differences of two rows.
#[inline(always)]
pub fn absolute_in_lanes(a: &[u16], b: &[u16]) -> u128
    requires same { length a.now ≡ length b.now }
    requires held { length a.now ≤ 65536 }
    ensures { result ≡ sum_by (λ p. abs_diff p.0 p.1) (zip a.now b.now) }
{
    let mut lanes = u32x8::splat(0);
    let eights = a.len() / 8;
    for eight in 0..eights {
        lanes = lanes + differences(&a[8 * eight..8 * eight + 8], &b[8 * eight..8 * eight + 8]);
    }
    let mut sum = u128::from(lanes.strict_reduce_sum());
    for i in 8 * eights..a.len() {
        sum += u128::from(a[i].abs_diff(b[i]));
    }
    sum
}

/// Returns the sum of the squared differences of two rows.
#[inline(always)]
pub fn squared_in_lanes(a: &[u16], b: &[u16]) -> u128
    requires same { length a.now ≡ length b.now }
    requires held { length a.now ≤ 65536 }
    ensures { result ≡ sum_by (λ p. squared_error p.0 p.1) (zip a.now b.now) }
{
    let mut lanes = Simd::<u64, 8>::splat(0);
    let eights = a.len() / 8;
    for eight in 0..eights {
        lanes = lanes + squares(&a[8 * eight..8 * eight + 8], &b[8 * eight..8 * eight + 8]);
    }
    let mut sum = u128::from(lanes.strict_reduce_sum());
    for i in 8 * eights..a.len() {
        let difference = u64::from(a[i].abs_diff(b[i]));
        sum += u128::from(difference * difference);
    }
    sum
}

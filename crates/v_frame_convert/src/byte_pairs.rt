//! Means of pairs of adjacent one-byte pixels, sixteen pairs at a time. The compiler does not vectorize a plain loop over
//! pairs.
ghost use Rattle.std.specs.Prelude.{◌≡◌, ◌*◌, ◌%◌, ◌<◌, ◌≤◌, length, map, take};
ghost use Rattle.v_frame.specs.Prelude.{halved, one_byte};

use std::simd::{u8x16, u8x32, u16x16};
use v_frame::pixel::Pixel;

/// Returns the number of the first `pairs` pairs that are processed in blocks of sixteen. It is 0 for pixels of two bytes.
#[inline(always)]
pub(crate) fn pairs_in_blocks<T: Pixel>(pairs: usize) -> usize
    ensures within { result ≤ pairs }
    ensures whole { result % 16 ≡ 0 }
    ensures bytes { 0 < result → T.BYTES ≡ 1 }
{
    if T::BYTES == 1 { pairs - pairs % 16 } else { 0 }
}

/// Sets each pixel of `row` to the mean of a pair of adjacent pixels of `source`, in blocks of sixteen.
pub(crate) fn halve_blocks<T: Pixel>(source: &[T], row: &mut [T])
    requires byte { 0 < length row.old → T.BYTES ≡ 1 }
    requires whole { length row.old % 16 ≡ 0 }
    requires long { length source.now ≡ 2 * length row.old }
    ensures { row.new ≡ halved T.form source.now source.now }
{
    for block in 0..row.len() / 16 {
        let at = 16 * block;
        halve_block(&source[2 * at..2 * at + 32], &mut row[at..at + 16]);
    }
}

/// Sets sixteen pixels of `row` to the means of the pairs of 32 pixels of `source`.
#[inline(always)]
fn halve_block<T: Pixel>(source: &[T], row: &mut [T])
    requires byte { T.BYTES ≡ 1 }
    requires pairs { length source.now ≡ 32 }
    requires means { length row.old ≡ 16 }
    ensures { row.new ≡ halved T.form source.now source.now }
{
    let mut bytes = [0; 32];
    write_values(source, &mut bytes);
    let means = means_of_pairs(&bytes).to_array();
    write_pixels(&means, row);
}

/// Writes one-byte pixels with these values. A copy of slices would first check whether they overlap.
#[inline(always)]
fn write_pixels<T: Pixel>(bytes: &[u8], row: &mut [T])
    requires byte { T.BYTES ≡ 1 }
    requires long { length bytes.now ≡ length row.old }
    ensures { row.new ≡ map T.form.pixel_of bytes.now }
{
    for i in 0..row.len() {
        row[i] = T::from_value(u16::from(bytes[i]));
    }
}

/// Writes the values of one-byte pixels.
#[inline(always)]
fn write_values<T: Pixel>(row: &[T], bytes: &mut [u8])
    requires byte { T.BYTES ≡ 1 }
    requires long { length bytes.old ≡ length row.now }
    ensures { bytes.new ≡ map T.form.value row.now }
{
    for i in 0..row.len() {
        bytes[i] = row[i].into_u16() as u8;
    }
}

/// Returns the means of the sixteen pairs of 32 bytes. Each vector lane holds a pair.
#[inline(always)]
fn means_of_pairs(bytes: &[u8]) -> u8x16
    requires { length bytes.now ≡ 32 }
    ensures { result ≡ halved one_byte bytes.now bytes.now }
{
    let pairs = u16x16::from_le_bytes(u8x32::from_slice(bytes));
    let sums = (pairs & u16x16::splat(255)) + (pairs >> 8);
    ((sums + u16x16::splat(1)) >> 1).cast::<u8>()
}

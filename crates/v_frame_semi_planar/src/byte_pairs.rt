//! Interleaved pixels of one byte, sixteen pairs at a time. The compiler turns a plain loop into one load for each byte.
ghost use Rattle.std.specs.Prelude.{◌≡◌, ◌*◌, ◌%◌, ◌<◌, ◌≤◌, length, map};
ghost use Rattle.v_frame_semi_planar.specs.Interleaved.{interleaved};
ghost use Rattle.v_frame_semi_planar.specs.SemiPlanar.{shown_pixels};

use std::simd::{u8x32, u16x16};
use v_frame::pixel::Pixel;

/// Returns how many of `pairs` pairs are processed in blocks of sixteen. The number is 0 if a pixel has two bytes.
#[inline(always)]
pub(crate) fn pairs_in_blocks<T: Pixel>(pairs: usize) -> usize
    ensures within { result ≤ pairs }
    ensures whole { result % 16 ≡ 0 }
    ensures bytes { 0 < result → T.BYTES ≡ 1 }
{
    if T::BYTES == 1 { pairs - pairs % 16 } else { 0 }
}

/// Splits a row of interleaved pixels into two rows.
pub(crate) fn deinterleave_blocks<T: Pixel>(row: &[T], first: &mut [T], second: &mut [T])
    requires byte { 0 < length first.old → T.BYTES ≡ 1 }
    requires whole { length first.old % 16 ≡ 0 }
    requires long { length row.now ≡ 2 * length first.old }
    requires equal { length second.old ≡ length first.old }
    ensures { row.now ≡ interleaved first.new second.new }
{
    for block in 0..first.len() / 16 {
        let at = 16 * block;
        let mut bytes = [0; 32];
        write_values(&mut bytes, &row[2 * at..2 * at + 32]);
        decode_block(&mut first[at..at + 16], &mut second[at..at + 16], &bytes);
    }
}

/// Writes the values of pixels of one byte.
#[inline(always)]
fn write_values<T: Pixel>(bytes: &mut [u8], row: &[T])
    requires byte { T.BYTES ≡ 1 }
    requires long { length bytes.old ≡ length row.now }
    ensures { bytes.new ≡ map T.form.value row.now }
{
    for i in 0..row.len() {
        bytes[i] = row[i].into_u16() as u8;
    }
}

/// Decodes the bytes of interleaved pixels into two rows.
pub(crate) fn decode_blocks<T: Pixel>(first: &mut [T], second: &mut [T], bytes: &[u8])
    requires byte { 0 < length first.old → T.BYTES ≡ 1 }
    requires whole { length first.old % 16 ≡ 0 }
    requires long { length bytes.now ≡ 2 * length first.old }
    requires equal { length second.old ≡ length first.old }
    ensures { interleaved first.new second.new ≡ shown_pixels T.form 0 (2 * length first.old) bytes.now }
{
    for block in 0..first.len() / 16 {
        let at = 16 * block;
        decode_block(
            &mut first[at..at + 16],
            &mut second[at..at + 16],
            &bytes[2 * at..2 * at + 32],
        );
    }
}

/// Decodes sixteen pixels of each row. Each lane holds a pair.
#[inline(always)]
fn decode_block<T: Pixel>(first: &mut [T], second: &mut [T], bytes: &[u8])
    requires byte { T.BYTES ≡ 1 }
    requires first { length first.old ≡ 16 }
    requires second { length second.old ≡ 16 }
    requires long { length bytes.now ≡ 32 }
    ensures { interleaved first.new second.new ≡ shown_pixels T.form 0 32 bytes.now }
{
    let pairs = u16x16::from_le_bytes(u8x32::from_slice(bytes));
    let low = (pairs & u16x16::splat(255)).cast::<u8>().to_array();
    let high = (pairs >> 8).cast::<u8>().to_array();
    write_pixels(&low, first);
    write_pixels(&high, second);
}

/// Decodes pixels of one byte. A copy of the slice would first test whether source and target overlap.
#[inline(always)]
fn write_pixels<T: Pixel>(bytes: &[u8], row: &mut [T])
    requires byte { T.BYTES ≡ 1 }
    requires long { length bytes.now ≡ length row.old }
    ensures { row.new ≡ map T.form.pixel_of bytes.now }
{
    for i in 0..row.len() {
        row[i] = T::from_value(u16::from(bytes[i]));
    }
}

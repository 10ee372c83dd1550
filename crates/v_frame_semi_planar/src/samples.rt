//! Encodes and decodes rows of samples, which may leave low bits of their bytes unused.
ghost use Rattle.std.specs.Prelude.{◌≡◌, ◌*◌, ◌/◌, ◌^◌, ◌<◌, length};
ghost use Rattle.v_frame.specs.Prelude.{bytes_of, value_of_bytes};
ghost use Rattle.v_frame_semi_planar.specs.Interleaved.{interleaved};
ghost use Rattle.v_frame_semi_planar.specs.SemiPlanar.{shown_pixels, stored_bytes};

use crate::byte_pairs::{decode_blocks, pairs_in_blocks};
use v_frame::pixel::{Pixel, encode_row};

/// Encodes a row: each sample is shifted left by `unused` bits and written in little-endian order.
pub(crate) fn encode_samples<T: Pixel>(bytes: &mut [u8], row: &[T], unused: u32)
    requires long { length bytes.old ≡ T.BYTES * length row.now }
    requires few { unused < 8 }
    ensures { bytes.new ≡ stored_bytes T.form unused row.now }
{
    if unused == 0 {
        encode_row(bytes, row);
    } else {
        encode_moved(bytes, row, unused);
    }
}

/// Encodes a row whose samples have to be shifted.
fn encode_moved<T: Pixel>(bytes: &mut [u8], row: &[T], unused: u32)
    requires long { length bytes.old ≡ T.BYTES * length row.now }
    requires few { unused < 8 }
    ensures { bytes.new ≡ stored_bytes T.form unused row.now }
{
    for i in 0..row.len() {
        let start = T::BYTES * i;
        encode_sample(&mut bytes[start..start + T::BYTES], row[i], unused);
    }
}

/// Encodes two rows with their samples interleaved.
pub(crate) fn encode_pairs<T: Pixel>(bytes: &mut [u8], first: &[T], second: &[T], unused: u32)
    requires long { length bytes.old ≡ 2 * T.BYTES * length first.now }
    requires equal { length second.now ≡ length first.now }
    requires few { unused < 8 }
    ensures { bytes.new ≡ stored_bytes T.form unused (interleaved first.now second.now) }
{
    for i in 0..first.len() {
        let start = 2 * T::BYTES * i;
        let middle = start + T::BYTES;
        encode_sample(&mut bytes[start..middle], first[i], unused);
        encode_sample(&mut bytes[middle..middle + T::BYTES], second[i], unused);
    }
}

/// Encodes one sample.
#[inline(always)]
fn encode_sample<T: Pixel>(bytes: &mut [u8], sample: T, unused: u32)
    requires long { length bytes.old ≡ T.BYTES }
    requires few { unused < 8 }
    ensures { bytes.new ≡ bytes_of T.form.size (T.form.value sample * 2 ^ unused) }
{
    let [low, high] = (sample.into_u16() << unused).to_le_bytes();
    bytes[0] = low;
    if T::BYTES == 2 {
        bytes[1] = high;
    }
}

/// Decodes a row of samples: each is read in little-endian order and shifted right by `unused` bits.
pub(crate) fn decode_samples<T: Pixel>(row: &mut [T], bytes: &[u8], unused: u32)
    requires long { length bytes.now ≡ T.BYTES * length row.old }
    requires few { unused < 8 }
    ensures { row.new ≡ shown_pixels T.form unused (length row.old) bytes.now }
{
    if unused == 0 {
        T::decode_row(row, bytes);
    } else {
        decode_moved(row, bytes, unused);
    }
}

/// Decodes a row whose samples have to be shifted.
fn decode_moved<T: Pixel>(row: &mut [T], bytes: &[u8], unused: u32)
    requires long { length bytes.now ≡ T.BYTES * length row.old }
    requires few { unused < 8 }
    ensures { row.new ≡ shown_pixels T.form unused (length row.old) bytes.now }
{
    for i in 0..row.len() {
        let start = T::BYTES * i;
        row[i] = decode_sample(&bytes[start..start + T::BYTES], unused);
    }
}

/// Decodes a row of interleaved samples into two rows.
pub(crate) fn decode_pairs<T: Pixel>(first: &mut [T], second: &mut [T], bytes: &[u8], unused: u32)
    requires long { length bytes.now ≡ 2 * T.BYTES * length first.old }
    requires equal { length second.old ≡ length first.old }
    requires few { unused < 8 }
    ensures { interleaved first.new second.new
        ≡ shown_pixels T.form unused (2 * length first.old) bytes.now }
{
    let whole = if unused == 0 {
        pairs_in_blocks::<T>(first.len())
    } else {
        0
    };
    let (front, rest) = bytes.split_at(2 * whole);
    let (first_front, first_rest) = first.split_at_mut(whole);
    let (second_front, second_rest) = second.split_at_mut(whole);
    decode_blocks(first_front, second_front, front);
    decode_pairs_of_samples(first_rest, second_rest, rest, unused);
}

/// Decodes a row of interleaved samples, sample by sample.
fn decode_pairs_of_samples<T: Pixel>(first: &mut [T], second: &mut [T], bytes: &[u8], unused: u32)
    requires long { length bytes.now ≡ 2 * T.BYTES * length first.old }
    requires equal { length second.old ≡ length first.old }
    requires few { unused < 8 }
    ensures { interleaved first.new second.new
        ≡ shown_pixels T.form unused (2 * length first.old) bytes.now }
{
    for i in 0..first.len() {
        let start = 2 * T::BYTES * i;
        let middle = start + T::BYTES;
        let p = decode_sample(&bytes[start..middle], unused);
        let q = decode_sample(&bytes[middle..middle + T::BYTES], unused);
        first[i] = p;
        second[i] = q;
    }
}

/// Decodes one sample.
#[inline(always)]
fn decode_sample<T: Pixel>(bytes: &[u8], unused: u32) -> T
    requires long { length bytes.now ≡ T.BYTES }
    requires few { unused < 8 }
    ensures { result ≡ T.form.pixel_of (value_of_bytes bytes.now / 2 ^ unused) }
{
    match T::try_from_u16(T::from_le(bytes).into_u16() >> unused) {
        Some(sample) => sample,
        None => unreachable!(),
    }
}

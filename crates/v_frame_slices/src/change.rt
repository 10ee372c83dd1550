//! Changes of the rows of a buffer, and copies between rows and bytes, for any type of pixel.
ghost use Rattle.v_frame_slices.specs.Made.{IsCopied, IsDecoded, IsEncoded, IsFilled, IsHalved, PadsBorder};

use crate::layout::{Bordered, Rows};
use crate::status::{FIRST, OK, SECOND, SIZES};
use v_frame::pixel::Pixel;
use v_frame::plane::{copy_rows, decode_rows, encode_rows};
use v_frame_ops::{pad_buffer, rows};

/// Sets each pixel of the rows to `pixel`.
pub fn fill<T: Pixel>(rows: &Rows, buffer: &mut [T], pixel: T) -> u32
    ensures made { IsFilled rows.now pixel buffer.old buffer.new result }
{
    if !rows.fit(buffer.len()) {
        return FIRST;
    }
    rows::fill(buffer, rows.width, rows.height, rows.stride, pixel);
    OK
}

/// Copies the picture of the source rows to the rows of the buffer, which must have the same size.
pub fn copy<T: Pixel>(rows: &Rows, buffer: &mut [T], source_rows: &Rows, source: &[T]) -> u32
    ensures made { IsCopied rows.now source_rows.now source.now buffer.old buffer.new result }
{
    if !rows.fit(buffer.len()) {
        return FIRST;
    }
    let Some(source) = source_rows.of(source) else {
        return SECOND;
    };
    if !rows.same_size(source_rows) {
        return SIZES;
    }
    copy_rows(&source, buffer, rows.width, rows.height, rows.stride);
    OK
}

/// Writes the picture of the source rows at half its size. The source must be exactly twice as wide and twice as high as the
/// target.
pub fn downscale<T: Pixel>(rows: &Rows, buffer: &mut [T], source_rows: &Rows, source: &[T]) -> u32
    ensures made { IsHalved rows.now source_rows.now source.now buffer.old buffer.new result T.form }
{
    if !rows.fit(buffer.len()) {
        return FIRST;
    }
    let Some(source) = source_rows.of(source) else {
        return SECOND;
    };
    if !rows.is_half_of(source_rows) {
        return SIZES;
    }
    rows::downscale(&source, buffer, rows.width, rows.height, rows.stride);
    OK
}

/// Decodes rows of little-endian bytes to rows of pixels of two bytes. The width and the stride of the source rows are counted in
/// bytes.
pub fn decode(rows: &Rows, buffer: &mut [u16], source_rows: &Rows, source: &[u8]) -> u32
    ensures made { IsDecoded rows.now source_rows.now source.now buffer.old buffer.new result }
{
    if !rows.fit(buffer.len()) {
        return FIRST;
    }
    let Some(source) = source_rows.of(source) else {
        return SECOND;
    };
    if !rows.has_half_the_width_of(source_rows) {
        return SIZES;
    }
    decode_rows(&source, buffer, rows.width, rows.height, rows.stride);
    OK
}

/// Encodes rows of pixels of two bytes as rows of little-endian bytes. The width and the stride of the buffer's rows are counted
/// in bytes.
pub fn encode(rows: &Rows, buffer: &mut [u8], source_rows: &Rows, source: &[u16]) -> u32
    ensures made { IsEncoded rows.now source_rows.now source.now buffer.old buffer.new result }
{
    if !rows.fit(buffer.len()) {
        return FIRST;
    }
    let Some(source) = source_rows.of(source) else {
        return SECOND;
    };
    if !source_rows.has_half_the_width_of(rows) {
        return SIZES;
    }
    encode_rows(&source, buffer, rows.width, rows.height, rows.stride);
    OK
}

/// Sets each entry of the border to the nearest pixel. The picture inside the border and all entries after the border are
/// unchanged.
pub fn pad<T: Pixel>(layout: &Bordered, buffer: &mut [T]) -> u32
    ensures pads { PadsBorder layout.now buffer.old buffer.new result }
{
    let Some((geometry, size)) = layout.of(buffer.len()) else {
        return FIRST;
    };
    let (whole, _) = buffer.split_at_mut(size);
    pad_buffer(whole, geometry);
    OK
}

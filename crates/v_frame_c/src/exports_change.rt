//! The exports that change the rows of a buffer, and copy between rows and bytes.
ghost use Rattle.v_frame.specs.Prelude.{one_byte, two_bytes};
ghost use Rattle.v_frame_slices.specs.Made.{IsCopied, IsDecoded, IsEncoded, IsFilled, IsHalved, PadsBorder};

use v_frame_slices::change;
use v_frame_slices::layout::{Bordered, Rows};

/// Sets each pixel of the rows to `pixel`.
#[unsafe(no_mangle)]
pub extern "C" fn v_frame_fill_u8(rows: &Rows, buffer: &mut [u8], pixel: u8) -> u32
    ensures made { IsFilled rows.now pixel buffer.old buffer.new result }
{
    change::fill(rows, buffer, pixel)
}

/// Sets each pixel of the rows to `pixel`.
#[unsafe(no_mangle)]
pub extern "C" fn v_frame_fill_u16(rows: &Rows, buffer: &mut [u16], pixel: u16) -> u32
    ensures made { IsFilled rows.now pixel buffer.old buffer.new result }
{
    change::fill(rows, buffer, pixel)
}

/// Copies the picture of the source rows to the rows of the buffer, which have its size.
#[unsafe(no_mangle)]
pub extern "C" fn v_frame_copy_u8(
    rows: &Rows,
    buffer: &mut [u8],
    source_rows: &Rows,
    source: &[u8],
) -> u32
    ensures made { IsCopied rows.now source_rows.now source.now buffer.old buffer.new result }
{
    change::copy(rows, buffer, source_rows, source)
}

/// Copies the picture of the source rows to the rows of the buffer, which have its size.
#[unsafe(no_mangle)]
pub extern "C" fn v_frame_copy_u16(
    rows: &Rows,
    buffer: &mut [u16],
    source_rows: &Rows,
    source: &[u16],
) -> u32
    ensures made { IsCopied rows.now source_rows.now source.now buffer.old buffer.new result }
{
    change::copy(rows, buffer, source_rows, source)
}

/// Writes the picture of the source rows in half its size: each pixel is the mean of a block of two by two, rounded to the
/// nearest value, and upwards at a half.
#[unsafe(no_mangle)]
pub extern "C" fn v_frame_downscale_u8(
    rows: &Rows,
    buffer: &mut [u8],
    source_rows: &Rows,
    source: &[u8],
) -> u32
    ensures made { IsHalved rows.now source_rows.now source.now buffer.old buffer.new result one_byte }
{
    change::downscale(rows, buffer, source_rows, source)
}

/// Writes the picture of the source rows in half its size: each pixel is the mean of a block of two by two, rounded to the
/// nearest value, and upwards at a half.
#[unsafe(no_mangle)]
pub extern "C" fn v_frame_downscale_u16(
    rows: &Rows,
    buffer: &mut [u16],
    source_rows: &Rows,
    source: &[u16],
) -> u32
    ensures made { IsHalved rows.now source_rows.now source.now buffer.old buffer.new result two_bytes }
{
    change::downscale(rows, buffer, source_rows, source)
}

/// Sets each entry of the border to the nearest pixel. The picture inside of it and all entries after it are unchanged.
#[unsafe(no_mangle)]
pub extern "C" fn v_frame_pad_u8(layout: &Bordered, buffer: &mut [u8]) -> u32
    ensures pads { PadsBorder layout.now buffer.old buffer.new result }
{
    change::pad(layout, buffer)
}

/// Sets each entry of the border to the nearest pixel. The picture inside of it and all entries after it are unchanged.
#[unsafe(no_mangle)]
pub extern "C" fn v_frame_pad_u16(layout: &Bordered, buffer: &mut [u16]) -> u32
    ensures pads { PadsBorder layout.now buffer.old buffer.new result }
{
    change::pad(layout, buffer)
}

/// Decodes rows of little-endian bytes to rows of pixels. The rows of the source count bytes.
#[unsafe(no_mangle)]
pub extern "C" fn v_frame_decode_u16(
    rows: &Rows,
    buffer: &mut [u16],
    source_rows: &Rows,
    source: &[u8],
) -> u32
    ensures made { IsDecoded rows.now source_rows.now source.now buffer.old buffer.new result }
{
    change::decode(rows, buffer, source_rows, source)
}

/// Encodes rows of pixels as rows of little-endian bytes. The rows of the buffer count bytes.
#[unsafe(no_mangle)]
pub extern "C" fn v_frame_encode_u16(
    rows: &Rows,
    buffer: &mut [u8],
    source_rows: &Rows,
    source: &[u16],
) -> u32
    ensures made { IsEncoded rows.now source_rows.now source.now buffer.old buffer.new result }
{
    change::encode(rows, buffer, source_rows, source)
}

//! The exports that change a picture's bit depth or size.
ghost use Rattle.v_frame.specs.Prelude.{one_byte, two_bytes};
ghost use Rattle.v_frame_slices.specs.Made.{IsAtDepth, IsUpscaled};

use v_frame_slices::convert;
use v_frame_slices::layout::Rows;

/// Converts the picture of the source rows from the bit depth `from` to the bit depth `to`.
#[unsafe(no_mangle)]
pub extern "C" fn v_frame_convert_depth_u8_u16(
    rows: &Rows,
    buffer: &mut [u16],
    source_rows: &Rows,
    source: &[u8],
    from: u32,
    to: u32,
) -> u32
    ensures made { IsAtDepth rows.now source_rows.now source.now buffer.old buffer.new result one_byte two_bytes
        1 2 from to }
{
    convert::convert_depth(rows, buffer, source_rows, source, from, to)
}

/// Converts the picture of the source rows from the bit depth `from` to the bit depth `to`.
#[unsafe(no_mangle)]
pub extern "C" fn v_frame_convert_depth_u16_u8(
    rows: &Rows,
    buffer: &mut [u8],
    source_rows: &Rows,
    source: &[u16],
    from: u32,
    to: u32,
) -> u32
    ensures made { IsAtDepth rows.now source_rows.now source.now buffer.old buffer.new result two_bytes one_byte
        2 1 from to }
{
    convert::convert_depth(rows, buffer, source_rows, source, from, to)
}

/// Converts the picture of the source rows from the bit depth `from` to the bit depth `to`.
#[unsafe(no_mangle)]
pub extern "C" fn v_frame_convert_depth_u16_u16(
    rows: &Rows,
    buffer: &mut [u16],
    source_rows: &Rows,
    source: &[u16],
    from: u32,
    to: u32,
) -> u32
    ensures made { IsAtDepth rows.now source_rows.now source.now buffer.old buffer.new result two_bytes
        two_bytes 2 2 from to }
{
    convert::convert_depth(rows, buffer, source_rows, source, from, to)
}

/// Writes the picture of the source rows with each pixel repeated `ratio_x` times across and `ratio_y` times down.
#[unsafe(no_mangle)]
pub extern "C" fn v_frame_upscale_u8(
    rows: &Rows,
    buffer: &mut [u8],
    source_rows: &Rows,
    source: &[u8],
    ratio_x: usize,
    ratio_y: usize,
) -> u32
    ensures made { IsUpscaled rows.now source_rows.now source.now buffer.old buffer.new result ratio_x ratio_y }
{
    convert::upscale(rows, buffer, source_rows, source, ratio_x, ratio_y)
}

/// Writes the picture of the source rows with each pixel repeated `ratio_x` times across and `ratio_y` times down.
#[unsafe(no_mangle)]
pub extern "C" fn v_frame_upscale_u16(
    rows: &Rows,
    buffer: &mut [u16],
    source_rows: &Rows,
    source: &[u16],
    ratio_x: usize,
    ratio_y: usize,
) -> u32
    ensures made { IsUpscaled rows.now source_rows.now source.now buffer.old buffer.new result ratio_x ratio_y }
{
    convert::upscale(rows, buffer, source_rows, source, ratio_x, ratio_y)
}

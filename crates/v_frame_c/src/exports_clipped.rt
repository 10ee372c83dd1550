//! The exports that copy the parts of pictures that lie inside of others.
ghost use Rattle.v_frame_slices.specs.Made.{IsCopiedTo};

use v_frame_slices::clipped;
use v_frame_slices::layout::Rows;

/// Copies the picture of the source rows to the rows of the buffer, with its first pixel at column `x` of row `y`. Pixels
/// outside of the rows are left out.
#[unsafe(no_mangle)]
pub extern "C" fn v_frame_copy_clipped_u8(
    rows: &Rows,
    buffer: &mut [u8],
    source_rows: &Rows,
    source: &[u8],
    x: isize,
    y: isize,
) -> u32
    ensures made { IsCopiedTo rows.now source_rows.now source.now buffer.old buffer.new result x y }
{
    clipped::copy_clipped(rows, buffer, source_rows, source, x, y)
}

/// Copies the picture of the source rows to the rows of the buffer, with its first pixel at column `x` of row `y`. Pixels
/// outside of the rows are left out.
#[unsafe(no_mangle)]
pub extern "C" fn v_frame_copy_clipped_u16(
    rows: &Rows,
    buffer: &mut [u16],
    source_rows: &Rows,
    source: &[u16],
    x: isize,
    y: isize,
) -> u32
    ensures made { IsCopiedTo rows.now source_rows.now source.now buffer.old buffer.new result x y }
{
    clipped::copy_clipped(rows, buffer, source_rows, source, x, y)
}

//! Copies of pictures to any place of other pictures, for any type of pixel.
ghost use Rattle.v_frame_slices.specs.Made.{IsCopiedTo};

use crate::layout::Rows;
use crate::status::{FIRST, OK, SECOND};
use v_frame::pixel::Pixel;
use v_frame_ops::rows::copy_region_clipped;

/// Copies the picture of the source rows to the rows of the buffer, with its first pixel at column `x` of row `y`. Both may be
/// negative or past the edge. Pixels outside the rows of the buffer are left out.
pub fn copy_clipped<T: Pixel>(
    rows: &Rows,
    buffer: &mut [T],
    source_rows: &Rows,
    source: &[T],
    x: isize,
    y: isize,
) -> u32
    ensures made { IsCopiedTo rows.now source_rows.now source.now buffer.old buffer.new result x y }
{
    if !rows.fit(buffer.len()) {
        return FIRST;
    }
    let Some(source) = source_rows.of(source) else {
        return SECOND;
    };
    copy_region_clipped(&source, buffer, rows.width, rows.height, rows.stride, x, y);
    OK
}

//! Copies into the rows of a buffer, which lie a stride apart: from pixels to pixels, from bytes to pixels, and from pixels to
//! bytes.
//!
//! Each call requires that [`rows_fit`](crate::rows_ref::rows_fit) returns `true` for its buffer. The buffer may be longer than
//! the rows, and its last row may end at its width. All entries outside the rows are unchanged. Not part of `v_frame` 0.7.0.
ghost use Rattle.std.specs.Prelude.{◌≡◌, ◌*◌, length, map};
ghost use Rattle.v_frame_raster.specs.Pixel.{bytes_of_pixels, pixels_of_bytes};
ghost use Rattle.v_frame_raster.specs.Table.{width_of, height_of};
ghost use Rattle.v_frame_raster.specs.StridedRows.{strided_rows, KeepsRest, RowsFit};

use crate::encoding::{AsBytes, AsPixels, write_rows};
use crate::rows_ref::RowsRef;
use v_frame_raster::pixel::{Pixel, encode_row};

/// Copies the picture `source` into the rows of `buffer`. Row `y` begins at index `stride * y`.
///
/// The size of `source` must be `width` by `height` pixels. Entries of `buffer` outside the rows are unchanged.
pub fn copy_rows<T: Copy>(
    source: &RowsRef<'_, T>,
    buffer: &mut [T],
    width: usize,
    height: usize,
    stride: usize,
)
    requires fit { RowsFit width height stride (length buffer.old) }
    requires wide { width_of source.now ≡ width }
    requires high { height_of source.now ≡ height }
    ensures table { strided_rows width height stride buffer.new ≡ source.now }
    ensures rest { KeepsRest width height stride buffer.old buffer.new }
{
    write_rows::<T, AsPixels>(source, buffer, width, height, stride);
}

/// Decodes rows of bytes into the rows of a buffer of pixels. Each pixel is encoded in little-endian order.
///
/// `width` and `stride` count pixels. A row of `source` must have [`BYTES`](Pixel::BYTES) bytes for each pixel, and `source`
/// must have `height` rows. Entries of `buffer` outside the rows are unchanged.
pub fn decode_rows<T: Pixel>(
    source: &RowsRef<'_, u8>,
    buffer: &mut [T],
    width: usize,
    height: usize,
    stride: usize,
)
    requires fit { RowsFit width height stride (length buffer.old) }
    requires wide { width_of source.now ≡ width * T.form.size }
    requires high { height_of source.now ≡ height }
    ensures table { strided_rows width height stride buffer.new
        ≡ map (pixels_of_bytes T.form width) source.now }
    ensures rest { KeepsRest width height stride buffer.old buffer.new }
{
    write_rows::<T, AsBytes>(source, buffer, width, height, stride);
}

/// Encodes the picture `source` into rows of bytes. Each pixel is encoded in little-endian order.
///
/// `width` and `stride` count bytes. A row of `buffer` must have [`BYTES`](Pixel::BYTES) bytes for each pixel of a row of
/// `source`, and `source` must have `height` rows. Bytes of `buffer` outside the rows are unchanged.
#[tactic(auto, using(v_frame_raster::proofs::tables::StridedWrites::row_ends))]
pub fn encode_rows<T: Pixel>(
    source: &RowsRef<'_, T>,
    buffer: &mut [u8],
    width: usize,
    height: usize,
    stride: usize,
)
    requires fit { RowsFit width height stride (length buffer.old) }
    requires wide { width ≡ T.form.size * width_of source.now }
    requires high { height_of source.now ≡ height }
    ensures table { strided_rows width height stride buffer.new
        ≡ map (bytes_of_pixels T.form) source.now }
    ensures rest { KeepsRest width height stride buffer.old buffer.new }
{
    let _width = source.width();
    for y in 0..height {
        let start = stride * y;
        encode_row(&mut buffer[start..start + width], source.visible_row(y));
    }
}

//! Combinations of two pictures, for any type of pixel.
ghost use Rattle.v_frame_slices.specs.Made.{IsBlended, IsBlendedByMask, IsDifference};

use crate::convert::is_depth;
use crate::layout::Rows;
use crate::status::{FIRST, NUMBER, OK, SECOND, SIZES, THIRD};
use v_frame::pixel::Pixel;
use v_frame_ops::rows as pictures;

/// Blends the picture of the source rows over the picture of the buffer. `weight` is the share of the source in each pixel, in
/// 256ths.
pub fn blend<T: Pixel>(
    rows: &Rows,
    buffer: &mut [T],
    source_rows: &Rows,
    source: &[T],
    weight: u16,
) -> u32
    ensures made { IsBlended rows.now source_rows.now source.now buffer.old buffer.new result T.form weight }
{
    if weight > 256 {
        return NUMBER;
    }
    if !rows.fit(buffer.len()) {
        return FIRST;
    }
    let Some(source) = source_rows.of(source) else {
        return SECOND;
    };
    if !rows.same_size(source_rows) {
        return SIZES;
    }
    pictures::blend(
        &source,
        buffer,
        rows.width,
        rows.height,
        rows.stride,
        weight,
    );
    OK
}

/// Blends the picture of the source rows over the picture of the buffer with a mask. Each pixel of the mask is the share of the
/// source, in 255ths.
pub fn blend_with_mask<T: Pixel>(
    rows: &Rows,
    buffer: &mut [T],
    source_rows: &Rows,
    source: &[T],
    mask_rows: &Rows,
    mask: &[u8],
) -> u32
    ensures made { IsBlendedByMask rows.now source_rows.now source.now buffer.old buffer.new result T.form
        mask_rows.now mask.now }
{
    if !rows.fit(buffer.len()) {
        return FIRST;
    }
    let Some(source) = source_rows.of(source) else {
        return SECOND;
    };
    let Some(mask) = mask_rows.of(mask) else {
        return THIRD;
    };
    if !rows.same_size(source_rows) || !rows.same_size(mask_rows) {
        return SIZES;
    }
    pictures::blend_with_mask(&source, &mask, buffer, rows.width, rows.height, rows.stride);
    OK
}

/// Replaces each pixel of the buffer by its absolute difference from the pixel of the source. The difference is multiplied by a
/// gain, and limited to the greatest value of the bit depth.
pub fn difference<T: Pixel>(
    rows: &Rows,
    buffer: &mut [T],
    source_rows: &Rows,
    source: &[T],
    gain: u16,
    depth: u32,
) -> u32
    ensures made { IsDifference rows.now source_rows.now source.now buffer.old buffer.new result T.form T.BYTES
        gain depth }
{
    if !is_depth::<T>(depth) {
        return NUMBER;
    }
    if !rows.fit(buffer.len()) {
        return FIRST;
    }
    let Some(source) = source_rows.of(source) else {
        return SECOND;
    };
    if !rows.same_size(source_rows) {
        return SIZES;
    }
    pictures::difference(
        &source,
        buffer,
        rows.width,
        rows.height,
        rows.stride,
        gain,
        depth as u8,
    );
    OK
}

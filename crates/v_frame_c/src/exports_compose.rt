//! The exports that compose pictures.
ghost use Rattle.v_frame.specs.Prelude.{one_byte, two_bytes};
ghost use Rattle.v_frame_slices.specs.Made.{IsBlended, IsBlendedByMask, IsDifference};

use v_frame_slices::compose;
use v_frame_slices::layout::Rows;

/// Blends the picture of the source rows over the picture of the buffer. The weight is the part of the source in each pixel, in
/// 256ths.
#[unsafe(no_mangle)]
pub extern "C" fn v_frame_blend_u8(
    rows: &Rows,
    buffer: &mut [u8],
    source_rows: &Rows,
    source: &[u8],
    weight: u16,
) -> u32
    ensures made { IsBlended rows.now source_rows.now source.now buffer.old buffer.new result one_byte weight }
{
    compose::blend(rows, buffer, source_rows, source, weight)
}

/// Blends the picture of the source rows over the picture of the buffer. The weight is the part of the source in each pixel, in
/// 256ths.
#[unsafe(no_mangle)]
pub extern "C" fn v_frame_blend_u16(
    rows: &Rows,
    buffer: &mut [u16],
    source_rows: &Rows,
    source: &[u16],
    weight: u16,
) -> u32
    ensures made { IsBlended rows.now source_rows.now source.now buffer.old buffer.new result two_bytes weight }
{
    compose::blend(rows, buffer, source_rows, source, weight)
}

/// Blends the picture of the source rows over the picture of the buffer by a mask, whose pixels are the parts of the source, in
/// 255ths.
#[unsafe(no_mangle)]
pub extern "C" fn v_frame_blend_with_mask_u8(
    rows: &Rows,
    buffer: &mut [u8],
    source_rows: &Rows,
    source: &[u8],
    mask_rows: &Rows,
    mask: &[u8],
) -> u32
    ensures made { IsBlendedByMask rows.now source_rows.now source.now buffer.old buffer.new result one_byte
        mask_rows.now mask.now }
{
    compose::blend_with_mask(rows, buffer, source_rows, source, mask_rows, mask)
}

/// Blends the picture of the source rows over the picture of the buffer by a mask, whose pixels are the parts of the source, in
/// 255ths.
#[unsafe(no_mangle)]
pub extern "C" fn v_frame_blend_with_mask_u16(
    rows: &Rows,
    buffer: &mut [u16],
    source_rows: &Rows,
    source: &[u16],
    mask_rows: &Rows,
    mask: &[u8],
) -> u32
    ensures made { IsBlendedByMask rows.now source_rows.now source.now buffer.old buffer.new result two_bytes
        mask_rows.now mask.now }
{
    compose::blend_with_mask(rows, buffer, source_rows, source, mask_rows, mask)
}

/// Replaces each pixel of the buffer by its absolute difference from the pixel of the source, times a gain, but at most by the
/// largest value of the bit depth.
#[unsafe(no_mangle)]
pub extern "C" fn v_frame_difference_u8(
    rows: &Rows,
    buffer: &mut [u8],
    source_rows: &Rows,
    source: &[u8],
    gain: u16,
    depth: u32,
) -> u32
    ensures made { IsDifference rows.now source_rows.now source.now buffer.old buffer.new result one_byte 1 gain depth }
{
    compose::difference(rows, buffer, source_rows, source, gain, depth)
}

/// Replaces each pixel of the buffer by its absolute difference from the pixel of the source, times a gain, but at most by the
/// largest value of the bit depth.
#[unsafe(no_mangle)]
pub extern "C" fn v_frame_difference_u16(
    rows: &Rows,
    buffer: &mut [u16],
    source_rows: &Rows,
    source: &[u16],
    gain: u16,
    depth: u32,
) -> u32
    ensures made { IsDifference rows.now source_rows.now source.now buffer.old buffer.new result two_bytes 2
        gain depth }
{
    compose::difference(rows, buffer, source_rows, source, gain, depth)
}

//! The exports for whole frames whose samples are in the top bits of words, as in P010.
ghost use Rattle.v_frame_slices.specs.TopBits.{AreInTopBits, AreOfTopBits};

use v_frame_slices::layout::Rows;
use v_frame_slices::top_bits;

/// Writes the luma and the interleaved chroma of a frame of three planes, whose samples have a bit depth, with the samples in
/// the top bits of words. The first rows are luma, the second rows chroma.
#[unsafe(no_mangle)]
pub extern "C" fn v_frame_to_semi_planar_top_bits_u16(
    y_rows: &Rows,
    y: &mut [u16],
    uv_rows: &Rows,
    uv: &mut [u16],
    source_rows: &Rows,
    source: &[u16],
    u_rows: &Rows,
    u: &[u16],
    v_rows: &Rows,
    v: &[u16],
    format: u32,
    depth: u32,
) -> u32
    ensures made { AreInTopBits depth format y_rows.now uv_rows.now source_rows.now u_rows.now v_rows.now
        y.old y.new uv.old uv.new source.now u.now v.now result }
{
    top_bits::to_top_bits(
        y_rows,
        y,
        uv_rows,
        uv,
        source_rows,
        source,
        u_rows,
        u,
        v_rows,
        v,
        format,
        depth,
    )
}

/// Writes the three planes of a frame of luma and interleaved chroma, whose samples are in the top bits of words.
#[unsafe(no_mangle)]
pub extern "C" fn v_frame_from_semi_planar_top_bits_u16(
    y_rows: &Rows,
    y: &mut [u16],
    u_rows: &Rows,
    u: &mut [u16],
    v_rows: &Rows,
    v: &mut [u16],
    source_rows: &Rows,
    source: &[u16],
    uv_rows: &Rows,
    uv: &[u16],
    format: u32,
    depth: u32,
) -> u32
    ensures made { AreOfTopBits depth format y_rows.now uv_rows.now source_rows.now u_rows.now v_rows.now
        y.old y.new u.old u.new v.old v.new source.now uv.now result }
{
    top_bits::from_top_bits(
        y_rows,
        y,
        u_rows,
        u,
        v_rows,
        v,
        source_rows,
        source,
        uv_rows,
        uv,
        format,
        depth,
    )
}

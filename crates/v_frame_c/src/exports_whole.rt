//! The exports for whole frames with interleaved chroma.
ghost use Rattle.v_frame_slices.specs.ChromaByTurns.{ArePlanesOf, IsSemiPlanarOf};

use v_frame_slices::layout::Rows;
use v_frame_slices::whole;

/// Writes the luma and the interleaved chroma of a frame of the three planes Y, U and V. The first rows are luma, the second
/// rows chroma.
#[unsafe(no_mangle)]
pub extern "C" fn v_frame_to_semi_planar_u8(
    y_rows: &Rows,
    y: &mut [u8],
    uv_rows: &Rows,
    uv: &mut [u8],
    source_rows: &Rows,
    source: &[u8],
    u_rows: &Rows,
    u: &[u8],
    v_rows: &Rows,
    v: &[u8],
    format: u32,
) -> u32
    ensures made { IsSemiPlanarOf format y_rows.now uv_rows.now source_rows.now u_rows.now v_rows.now
        y.old y.new uv.old uv.new source.now u.now v.now result }
{
    whole::to_semi_planar(
        y_rows,
        y,
        uv_rows,
        uv,
        source_rows,
        source,
        u_rows,
        u,
        v_rows,
        v,
        format,
    )
}

/// Writes the luma and the interleaved chroma of a frame of the three planes Y, U and V. The first rows are luma, the second
/// rows chroma.
#[unsafe(no_mangle)]
pub extern "C" fn v_frame_to_semi_planar_u16(
    y_rows: &Rows,
    y: &mut [u16],
    uv_rows: &Rows,
    uv: &mut [u16],
    source_rows: &Rows,
    source: &[u16],
    u_rows: &Rows,
    u: &[u16],
    v_rows: &Rows,
    v: &[u16],
    format: u32,
) -> u32
    ensures made { IsSemiPlanarOf format y_rows.now uv_rows.now source_rows.now u_rows.now v_rows.now
        y.old y.new uv.old uv.new source.now u.now v.now result }
{
    whole::to_semi_planar(
        y_rows,
        y,
        uv_rows,
        uv,
        source_rows,
        source,
        u_rows,
        u,
        v_rows,
        v,
        format,
    )
}

/// Writes the three planes of a frame of luma and interleaved chroma.
#[unsafe(no_mangle)]
pub extern "C" fn v_frame_from_semi_planar_u8(
    y_rows: &Rows,
    y: &mut [u8],
    u_rows: &Rows,
    u: &mut [u8],
    v_rows: &Rows,
    v: &mut [u8],
    source_rows: &Rows,
    source: &[u8],
    uv_rows: &Rows,
    uv: &[u8],
    format: u32,
) -> u32
    ensures made { ArePlanesOf format y_rows.now uv_rows.now source_rows.now u_rows.now v_rows.now
        y.old y.new u.old u.new v.old v.new source.now uv.now result }
{
    whole::from_semi_planar(
        y_rows,
        y,
        u_rows,
        u,
        v_rows,
        v,
        source_rows,
        source,
        uv_rows,
        uv,
        format,
    )
}

/// Writes the three planes of a frame of luma and interleaved chroma.
#[unsafe(no_mangle)]
pub extern "C" fn v_frame_from_semi_planar_u16(
    y_rows: &Rows,
    y: &mut [u16],
    u_rows: &Rows,
    u: &mut [u16],
    v_rows: &Rows,
    v: &mut [u16],
    source_rows: &Rows,
    source: &[u16],
    uv_rows: &Rows,
    uv: &[u16],
    format: u32,
) -> u32
    ensures made { ArePlanesOf format y_rows.now uv_rows.now source_rows.now u_rows.now v_rows.now
        y.old y.new u.old u.new v.old v.new source.now uv.now result }
{
    whole::from_semi_planar(
        y_rows,
        y,
        u_rows,
        u,
        v_rows,
        v,
        source_rows,
        source,
        uv_rows,
        uv,
        format,
    )
}

//! The exports for chroma that is interleaved in one plane, as in NV12 and P010.
ghost use Rattle.v_frame_slices.specs.ChromaByTurns.{AreDeinterleaved, IsInterleaved};

use v_frame_slices::layout::Rows;
use v_frame_slices::semi_planar;

/// Interleaves the pixels of the second and the third rows in the first rows.
#[unsafe(no_mangle)]
pub extern "C" fn v_frame_interleave_u8(
    rows: &Rows,
    buffer: &mut [u8],
    u_rows: &Rows,
    u: &[u8],
    v_rows: &Rows,
    v: &[u8],
) -> u32
    ensures made { IsInterleaved rows.now u_rows.now v_rows.now u.now v.now buffer.old buffer.new result }
{
    semi_planar::interleave(rows, buffer, u_rows, u, v_rows, v)
}

/// Interleaves the pixels of the second and the third rows in the first rows.
#[unsafe(no_mangle)]
pub extern "C" fn v_frame_interleave_u16(
    rows: &Rows,
    buffer: &mut [u16],
    u_rows: &Rows,
    u: &[u16],
    v_rows: &Rows,
    v: &[u16],
) -> u32
    ensures made { IsInterleaved rows.now u_rows.now v_rows.now u.now v.now buffer.old buffer.new result }
{
    semi_planar::interleave(rows, buffer, u_rows, u, v_rows, v)
}

/// Separates the interleaved pixels of the first rows into the second and the third rows.
#[unsafe(no_mangle)]
pub extern "C" fn v_frame_deinterleave_u8(
    rows: &Rows,
    buffer: &[u8],
    u_rows: &Rows,
    u: &mut [u8],
    v_rows: &Rows,
    v: &mut [u8],
) -> u32
    ensures made { AreDeinterleaved rows.now u_rows.now v_rows.now buffer.now u.old u.new v.old v.new result }
{
    semi_planar::deinterleave(rows, buffer, u_rows, u, v_rows, v)
}

/// Separates the interleaved pixels of the first rows into the second and the third rows.
#[unsafe(no_mangle)]
pub extern "C" fn v_frame_deinterleave_u16(
    rows: &Rows,
    buffer: &[u16],
    u_rows: &Rows,
    u: &mut [u16],
    v_rows: &Rows,
    v: &mut [u16],
) -> u32
    ensures made { AreDeinterleaved rows.now u_rows.now v_rows.now buffer.now u.old u.new v.old v.new result }
{
    semi_planar::deinterleave(rows, buffer, u_rows, u, v_rows, v)
}

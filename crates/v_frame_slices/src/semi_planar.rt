//! Two chroma planes that are interleaved in one plane, and separated again, for any type of pixel.
ghost use Rattle.v_frame_slices.specs.ChromaByTurns.{AreDeinterleaved, IsInterleaved};

use crate::layout::Rows;
use crate::status::{FIRST, OK, SECOND, SIZES, THIRD};
use v_frame::pixel::Pixel;
use v_frame_semi_planar::rows as semi_planar;

/// Interleaves the pixels of the second and the third rows, and writes them to the first rows.
pub fn interleave<T: Pixel>(
    rows: &Rows,
    buffer: &mut [T],
    u_rows: &Rows,
    u: &[T],
    v_rows: &Rows,
    v: &[T],
) -> u32
    ensures made { IsInterleaved rows.now u_rows.now v_rows.now u.now v.now buffer.old buffer.new result }
{
    if !rows.fit(buffer.len()) {
        return FIRST;
    }
    let Some(u) = u_rows.of(u) else {
        return SECOND;
    };
    let Some(v) = v_rows.of(v) else {
        return THIRD;
    };
    if !u_rows.has_half_the_width_of(rows) || !u_rows.same_size(v_rows) {
        return SIZES;
    }
    semi_planar::interleave(&u, &v, buffer, rows.width, rows.height, rows.stride);
    OK
}

/// Separates the interleaved pixels of the first rows into the second and the third rows.
pub fn deinterleave<T: Pixel>(
    rows: &Rows,
    buffer: &[T],
    u_rows: &Rows,
    u: &mut [T],
    v_rows: &Rows,
    v: &mut [T],
) -> u32
    ensures made { AreDeinterleaved rows.now u_rows.now v_rows.now buffer.now u.old u.new v.old v.new result }
{
    let Some(source) = rows.of(buffer) else {
        return FIRST;
    };
    if !u_rows.fit(u.len()) {
        return SECOND;
    }
    if !v_rows.fit(v.len()) {
        return THIRD;
    }
    if !u_rows.has_half_the_width_of(rows) || !u_rows.same_size(v_rows) {
        return SIZES;
    }
    semi_planar::deinterleave(
        &source,
        u_rows.width,
        u_rows.height,
        u,
        u_rows.stride,
        v,
        v_rows.stride,
    );
    OK
}

//! The exports that convert luma and chroma to colors, and colors to luma and chroma.
ghost use Rattle.v_frame_slices.specs.ColorCalls.{AreColors, AreSamples};

use v_frame_slices::colors::{self, ColorChoice};
use v_frame_slices::layout::Rows;
use v_frame_slices::samples;

/// Converts three pictures of one size, Y', Cb and Cr of 8 bits, to colors R'G'B' by a standard.
#[unsafe(no_mangle)]
pub extern "C" fn v_frame_yuv444_to_rgb_u8(
    rows: &Rows,
    buffer: &mut [u8],
    y_rows: &Rows,
    y: &[u8],
    u_rows: &Rows,
    u: &[u8],
    v_rows: &Rows,
    v: &[u8],
    choice: &ColorChoice,
) -> u32
    ensures made { AreColors choice.now rows.now y_rows.now u_rows.now v_rows.now y.now u.now v.now buffer.old
        buffer.new result }
{
    colors::to_rgb(rows, buffer, y_rows, y, u_rows, u, v_rows, v, choice)
}

/// Converts the colors R'G'B' of 8 bits of the first rows to Y', Cb and Cr by a standard, in the second, third and fourth rows.
#[unsafe(no_mangle)]
pub extern "C" fn v_frame_rgb_to_yuv444_u8(
    rows: &Rows,
    buffer: &[u8],
    y_rows: &Rows,
    y: &mut [u8],
    u_rows: &Rows,
    u: &mut [u8],
    v_rows: &Rows,
    v: &mut [u8],
    choice: &ColorChoice,
) -> u32
    ensures made { AreSamples choice.now rows.now y_rows.now u_rows.now v_rows.now buffer.now y.old y.new u.old
        u.new v.old v.new result }
{
    samples::of_rgb(rows, buffer, y_rows, y, u_rows, u, v_rows, v, choice)
}

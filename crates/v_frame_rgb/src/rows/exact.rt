//! From Y'CbCr of any bit depth to R'G'B': rows of luma and chroma samples of the same size become rows of colors, rounded
//! once.
ghost use Rattle.std.specs.Prelude.{◌≡◌, ◌*◌, length, flat_map};
ghost use Rattle.v_frame.specs.Prelude.{strided_rows, width_of, height_of, KeepsRest, RowsFit};
ghost use Rattle.v_frame_rgb.specs.Exact.{exact_colors, exact_color_rows, exact_of_pixels};

use crate::color::{Color, ColorOrder};
use crate::exact::ExactMatrix;
use v_frame::pixel::Pixel;
use v_frame::plane::RowsRef;

/// Converts luma and chroma of the same size (4:4:4) and of any bit depth to 8-bit colors, and writes them to the rows in
/// `buffer` in the byte order `O`. Each channel is computed exactly and rounded once, as by [`ExactMatrix::color`].
///
/// `width` and `stride` count bytes. Each row has [`BYTES`](ColorOrder::BYTES) bytes for each pixel of `y`. All bytes of the
/// buffer outside these rows stay unchanged.
#[tactic(auto, using(v_frame_raster::proofs::tables::StridedWrites::row_ends))]
pub fn yuv444_to_rgb_exactly<T: Pixel, O: ColorOrder>(
    y: &RowsRef<'_, T>,
    u: &RowsRef<'_, T>,
    v: &RowsRef<'_, T>,
    buffer: &mut [u8],
    width: usize,
    height: usize,
    stride: usize,
    matrix: &ExactMatrix,
)
    requires fit { RowsFit width height stride (length buffer.old) }
    requires wide { width ≡ O.BYTES * width_of y.now }
    requires high { height_of y.now ≡ height }
    requires u_wide { width_of u.now ≡ width_of y.now }
    requires u_high { height_of u.now ≡ height }
    requires v_wide { width_of v.now ≡ width_of y.now }
    requires v_high { height_of v.now ≡ height }
    ensures table { strided_rows width height stride buffer.new
        ≡ exact_color_rows matrix.now.standard matrix.now.range matrix.now.depth T.form
        O.bytes_of y.now u.now v.now }
    ensures rest { KeepsRest width height stride buffer.old buffer.new }
{
    for k in 0..height {
        let start = stride * k;
        let (luma, cb, cr) = (y.visible_row(k), u.visible_row(k), v.visible_row(k));
        decode_row::<T, O>(&mut buffer[start..start + width], luma, cb, cr, matrix);
    }
}

/// Converts a row of luma and two rows of chroma of the same length to colors.
fn decode_row<T: Pixel, O: ColorOrder>(
    out: &mut [u8],
    y: &[T],
    u: &[T],
    v: &[T],
    matrix: &ExactMatrix,
)
    requires out { length out.old ≡ O.BYTES * length y.now }
    requires u { length u.now ≡ length y.now }
    requires v { length v.now ≡ length y.now }
    ensures { out.new ≡ flat_map O.bytes_of (exact_colors matrix.now.standard matrix.now.range
        matrix.now.depth T.form y.now u.now v.now) }
{
    for x in 0..y.len() {
        let start = O::BYTES * x;
        let color = color_of_pixels(matrix, y[x], u[x], v[x]);
        O::write(&mut out[start..start + O::BYTES], color);
    }
}

/// Returns the color of a luma pixel and two chroma pixels.
#[inline(always)]
#[tactic(auto, unfolding(crate::specs::Exact::exact_of_pixels))]
fn color_of_pixels<T: Pixel>(matrix: &ExactMatrix, y: T, u: T, v: T) -> Color
    ensures { result ≡ exact_of_pixels matrix.now.standard matrix.now.range matrix.now.depth
        T.form y u v }
{
    matrix.color(y.into_u16(), u.into_u16(), v.into_u16())
}

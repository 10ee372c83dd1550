//! From Y'CbCr to R'G'B': rows of luma and chroma samples of the same size become rows of colors.
ghost use Rattle.std.specs.Prelude.{◌≡◌, ◌*◌, length, flat_map};
ghost use Rattle.v_frame.specs.Prelude.{strided_rows, width_of, height_of, KeepsRest, RowsFit};
ghost use Rattle.v_frame_rgb.specs.Colors.{colors_of, color_rows};

use crate::color::ColorOrder;
use crate::matrix::RgbMatrix;
use v_frame::plane::RowsRef;

/// Converts 8-bit luma and chroma of the same size (4:4:4) to colors, and writes them to the rows in `buffer` in the byte order
/// `O`. Each channel is computed with `matrix` as by [`RgbMatrix::color`].
///
/// `width` and `stride` count bytes. Each row has [`BYTES`](ColorOrder::BYTES) bytes for each pixel of `y`. All bytes of the
/// buffer outside these rows stay unchanged.
#[tactic(auto, using(v_frame_raster::proofs::tables::StridedWrites::row_ends))]
pub fn yuv444_to_rgb<O: ColorOrder>(
    y: &RowsRef<'_, u8>,
    u: &RowsRef<'_, u8>,
    v: &RowsRef<'_, u8>,
    buffer: &mut [u8],
    width: usize,
    height: usize,
    stride: usize,
    matrix: RgbMatrix,
)
    requires fit { RowsFit width height stride (length buffer.old) }
    requires wide { width ≡ O.BYTES * width_of y.now }
    requires high { height_of y.now ≡ height }
    requires u_wide { width_of u.now ≡ width_of y.now }
    requires u_high { height_of u.now ≡ height }
    requires v_wide { width_of v.now ≡ width_of y.now }
    requires v_high { height_of v.now ≡ height }
    ensures table { strided_rows width height stride buffer.new
        ≡ color_rows matrix O.bytes_of y.now u.now v.now }
    ensures rest { KeepsRest width height stride buffer.old buffer.new }
{
    for k in 0..height {
        let start = stride * k;
        let (luma, cb, cr) = (y.visible_row(k), u.visible_row(k), v.visible_row(k));
        decode_row::<O>(&mut buffer[start..start + width], luma, cb, cr, matrix);
    }
}

/// Converts a row of luma and two rows of chroma of the same length to colors.
fn decode_row<O: ColorOrder>(out: &mut [u8], y: &[u8], u: &[u8], v: &[u8], matrix: RgbMatrix)
    requires out { length out.old ≡ O.BYTES * length y.now }
    requires u { length u.now ≡ length y.now }
    requires v { length v.now ≡ length y.now }
    ensures { out.new ≡ flat_map O.bytes_of (colors_of matrix y.now u.now v.now) }
{
    for x in 0..y.len() {
        let start = O::BYTES * x;
        O::write(
            &mut out[start..start + O::BYTES],
            matrix.color(y[x], u[x], v[x]),
        );
    }
}

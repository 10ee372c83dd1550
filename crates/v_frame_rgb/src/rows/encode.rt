//! From R'G'B' to Y'CbCr: rows of colors become rows of the samples of all three channels, or of one channel.
ghost use Rattle.std.specs.Prelude.{◌≡◌, ◌*◌, length, map};
ghost use Rattle.v_frame.specs.Prelude.{strided_rows, width_of, height_of, KeepsRest, RowsFit};
ghost use Rattle.v_frame_rgb.specs.Colors.{colors_in, sample_rows, y_of, u_of, v_of};

use crate::color::ColorOrder;
use crate::matrix::YuvMatrix;
use crate::sample::{Channel, ChromaU, ChromaV, Luma};
use v_frame::plane::RowsRef;

/// Converts a packed picture in the byte order `O` to luma and chroma without subsampling (4:4:4), and writes them to the rows
/// in the buffers `y`, `u` and `v`.
///
/// Each row of `source` has [`BYTES`](ColorOrder::BYTES) bytes for each sample, and `source` has `height` rows. `width` and
/// `height` hold for all three buffers, and `strides` are the strides of `y`, `u` and `v`.
#[tactic(auto, using(v_frame_raster::proofs::tables::StridedWrites::row_ends))]
pub fn rgb_to_yuv444<O: ColorOrder>(
    source: &RowsRef<'_, u8>,
    y: &mut [u8],
    u: &mut [u8],
    v: &mut [u8],
    width: usize,
    height: usize,
    strides: (usize, usize, usize),
    matrix: YuvMatrix,
)
    requires y_fit { RowsFit width height strides.0 (length y.old) }
    requires u_fit { RowsFit width height strides.1 (length u.old) }
    requires v_fit { RowsFit width height strides.2 (length v.old) }
    requires wide { width_of source.now ≡ O.BYTES * width }
    requires high { height_of source.now ≡ height }
    ensures luma { strided_rows width height strides.0 y.new
        ≡ sample_rows (y_of matrix) O.color_at O.BYTES width source.now }
    ensures chroma_u { strided_rows width height strides.1 u.new
        ≡ sample_rows (u_of matrix) O.color_at O.BYTES width source.now }
    ensures chroma_v { strided_rows width height strides.2 v.new
        ≡ sample_rows (v_of matrix) O.color_at O.BYTES width source.now }
    ensures y_rest { KeepsRest width height strides.0 y.old y.new }
    ensures u_rest { KeepsRest width height strides.1 u.old u.new }
    ensures v_rest { KeepsRest width height strides.2 v.old v.new }
{
    let (y_stride, u_stride, v_stride) = strides;
    for k in 0..height {
        let (y_start, u_start, v_start) = (y_stride * k, u_stride * k, v_stride * k);
        encode_channels::<O>(
            &mut y[y_start..y_start + width],
            &mut u[u_start..u_start + width],
            &mut v[v_start..v_start + width],
            source.visible_row(k),
            matrix,
        );
    }
}

/// Converts a packed picture in the byte order `O` to the samples of one channel `C` (luma, Cb or Cr), and writes them to the
/// rows in `buffer`.
///
/// Each row of `source` has [`BYTES`](ColorOrder::BYTES) bytes for each sample, and `source` has `height` rows.
#[tactic(auto, using(v_frame_raster::proofs::tables::StridedWrites::row_ends))]
pub fn rgb_to_channel<O: ColorOrder, C: Channel>(
    source: &RowsRef<'_, u8>,
    buffer: &mut [u8],
    width: usize,
    height: usize,
    stride: usize,
    matrix: YuvMatrix,
)
    requires fit { RowsFit width height stride (length buffer.old) }
    requires wide { width_of source.now ≡ O.BYTES * width }
    requires high { height_of source.now ≡ height }
    ensures table { strided_rows width height stride buffer.new
        ≡ sample_rows (C.sample matrix) O.color_at O.BYTES width source.now }
    ensures rest { KeepsRest width height stride buffer.old buffer.new }
{
    for k in 0..height {
        let start = stride * k;
        encode_row::<O, C>(
            &mut buffer[start..start + width],
            source.visible_row(k),
            matrix,
        );
    }
}

/// Converts a row of colors to one sample for each color.
fn encode_row<O: ColorOrder, C: Channel>(out: &mut [u8], colors: &[u8], matrix: YuvMatrix)
    requires { length colors.now ≡ O.BYTES * length out.old }
    ensures { out.new
        ≡ map (C.sample matrix) (colors_in O.color_at O.BYTES (length out.old) colors.now) }
{
    for x in 0..out.len() {
        let start = O::BYTES * x;
        out[x] = C::sample(matrix, O::read(&colors[start..start + O::BYTES]));
    }
}

/// Converts a row of colors to one luma, one Cb and one Cr sample for each color.
fn encode_channels<O: ColorOrder>(
    y: &mut [u8],
    u: &mut [u8],
    v: &mut [u8],
    colors: &[u8],
    matrix: YuvMatrix,
)
    requires colors { length colors.now ≡ O.BYTES * length y.old }
    requires u_long { length u.old ≡ length y.old }
    requires v_long { length v.old ≡ length y.old }
    ensures y { y.new ≡ map (y_of matrix) (colors_in O.color_at O.BYTES (length y.old) colors.now) }
    ensures u { u.new ≡ map (u_of matrix) (colors_in O.color_at O.BYTES (length u.old) colors.now) }
    ensures v { v.new ≡ map (v_of matrix) (colors_in O.color_at O.BYTES (length v.old) colors.now) }
{
    for x in 0..y.len() {
        let start = O::BYTES * x;
        let color = O::read(&colors[start..start + O::BYTES]);
        y[x] = Luma::sample(matrix, color);
        u[x] = ChromaU::sample(matrix, color);
        v[x] = ChromaV::sample(matrix, color);
    }
}

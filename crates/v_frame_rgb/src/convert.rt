//! Conversions between planes of Y'CbCr samples and packed R'G'B' pictures.
ghost use Rattle.std.specs.Prelude.{◌≡◌, ◌*◌, length};
ghost use Rattle.v_frame.specs.Prelude.{strided_rows, table_of, width_of, height_of, KeepsBorder, KeepsRest, RowsFit};
ghost use Rattle.v_frame_rgb.specs.Colors.{color_rows, sample_rows, y_of, u_of, v_of};

use crate::color::ColorOrder;
use crate::matrix::{RgbMatrix, YuvMatrix};
use crate::rows;
use crate::sample::Channel;
use v_frame::plane::{Plane, PlaneRef, RowsRef, VisibleMut};

/// Converts three 8-bit planes of the same size (4:4:4) to colors, and writes them to the rows in `buffer` in the byte order
/// `O`. Each channel is computed with `matrix` as by [`RgbMatrix::color`].
///
/// `width` and `stride` count bytes. Each row has [`BYTES`](ColorOrder::BYTES) bytes for each pixel of the planes. All bytes of
/// the buffer outside these rows stay unchanged.
pub fn yuv444_to_rgb<O: ColorOrder>(
    y: &PlaneRef<'_, u8>,
    u: &PlaneRef<'_, u8>,
    v: &PlaneRef<'_, u8>,
    buffer: &mut [u8],
    width: usize,
    height: usize,
    stride: usize,
    matrix: RgbMatrix,
)
    requires fit { RowsFit width height stride (length buffer.old) }
    requires wide { width ≡ O.BYTES * y.now.geometry.width }
    requires high { y.now.geometry.height ≡ height }
    requires u_wide { u.now.geometry.width ≡ y.now.geometry.width }
    requires u_high { u.now.geometry.height ≡ height }
    requires v_wide { v.now.geometry.width ≡ y.now.geometry.width }
    requires v_high { v.now.geometry.height ≡ height }
    ensures table { strided_rows width height stride buffer.new
        ≡ color_rows matrix O.bytes_of (table_of y.now) (table_of u.now) (table_of v.now) }
    ensures rest { KeepsRest width height stride buffer.old buffer.new }
{
    let (y, u, v) = (y.as_rows_ref(), u.as_rows_ref(), v.as_rows_ref());
    rows::yuv444_to_rgb::<O>(&y, &u, &v, buffer, width, height, stride, matrix);
}

/// Converts a packed picture in the byte order `O` to the samples of one channel `C` (luma, Cb or Cr), and writes them to
/// `plane`. The padding of `plane` stays unchanged.
///
/// Each row of `source` has [`BYTES`](ColorOrder::BYTES) bytes for each pixel of the plane, and `source` has as many rows as
/// the plane.
pub fn rgb_to_channel<O: ColorOrder, C: Channel>(
    source: &RowsRef<'_, u8>,
    plane: &mut Plane<u8>,
    matrix: YuvMatrix,
)
    requires wide { width_of source.now ≡ O.BYTES * plane.old.geometry.width }
    requires high { height_of source.now ≡ plane.old.geometry.height }
    ensures table { table_of plane.new
        ≡ sample_rows (C.sample matrix) O.color_at O.BYTES plane.old.geometry.width source.now }
    ensures border { KeepsBorder plane.old plane.new }
{
    let VisibleMut {
        entries,
        width,
        height,
        stride,
    } = plane.visible_mut();
    rows::rgb_to_channel::<O, C>(source, entries, width, height, stride, matrix);
}

/// Converts a packed picture in the byte order `O` to luma and chroma without subsampling (4:4:4), and writes them to the
/// planes `y`, `u` and `v`. The padding of the planes stays unchanged.
///
/// The planes have the same size. Each row of `source` has [`BYTES`](ColorOrder::BYTES) bytes for each pixel of a plane, and
/// `source` has as many rows as a plane.
pub fn rgb_to_yuv444<O: ColorOrder>(
    source: &RowsRef<'_, u8>,
    y: &mut Plane<u8>,
    u: &mut Plane<u8>,
    v: &mut Plane<u8>,
    matrix: YuvMatrix,
)
    requires wide { width_of source.now ≡ O.BYTES * y.old.geometry.width }
    requires high { height_of source.now ≡ y.old.geometry.height }
    requires u_wide { u.old.geometry.width ≡ y.old.geometry.width }
    requires u_high { u.old.geometry.height ≡ y.old.geometry.height }
    requires v_wide { v.old.geometry.width ≡ y.old.geometry.width }
    requires v_high { v.old.geometry.height ≡ y.old.geometry.height }
    ensures luma { table_of y.new
        ≡ sample_rows (y_of matrix) O.color_at O.BYTES y.old.geometry.width source.now }
    ensures chroma_u { table_of u.new
        ≡ sample_rows (u_of matrix) O.color_at O.BYTES y.old.geometry.width source.now }
    ensures chroma_v { table_of v.new
        ≡ sample_rows (v_of matrix) O.color_at O.BYTES y.old.geometry.width source.now }
    ensures y_border { KeepsBorder y.old y.new }
    ensures u_border { KeepsBorder u.old u.new }
    ensures v_border { KeepsBorder v.old v.new }
{
    let VisibleMut {
        entries: y_rows,
        width,
        height,
        stride: y_stride,
    } = y.visible_mut();
    let VisibleMut {
        entries: u_rows,
        width: _,
        height: _,
        stride: u_stride,
    } = u.visible_mut();
    let VisibleMut {
        entries: v_rows,
        width: _,
        height: _,
        stride: v_stride,
    } = v.visible_mut();
    let strides = (y_stride, u_stride, v_stride);
    rows::rgb_to_yuv444::<O>(
        source, y_rows, u_rows, v_rows, width, height, strides, matrix,
    );
}

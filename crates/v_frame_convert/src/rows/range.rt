//! Pictures converted between the limited range and the full range.
ghost use Rattle.std.specs.Prelude.{◌≡◌, ◌^◌, ◌≤◌, length};
ghost use Rattle.v_frame.specs.Prelude.{height_of, strided_rows, width_of, KeepsRest, RowsFit};
ghost use Rattle.v_frame_convert.specs.Convert.{converted};
ghost use Rattle.v_frame_convert.specs.Depth.{DepthFits};
ghost use Rattle.v_frame_convert.specs.Range.{pixel_by, in_full_range, in_limited_range, luma_in_full_range, chroma_in_full_range, luma_in_limited_range, chroma_in_limited_range};

use super::map_into;
use crate::range::Component;
use crate::range_values::{
    chroma_byte_to_limited, chroma_to_full, chroma_to_limited, luma_byte_to_limited, luma_to_full,
    luma_to_limited,
};
use v_frame::pixel::Pixel;
use v_frame::plane::RowsRef;

/// Converts `source` from the limited range to the full range of bit depth `depth` and writes it into the rows in `buffer`.
/// `source` has the same size as the rows.
///
/// Let `k` be `2^(depth - 8)` and `peak` be `2^depth - 1`. A luma value `v` becomes `(v - 16 * k) * peak / (219 * k)`, and a
/// chroma value `v` becomes `(v - 128 * k) * peak / (224 * k) + 128 * k`. The result is rounded to the nearest integer, halves
/// up, and clipped to `0..=peak`. At 8 bits, luma 16 becomes 0 and 235 becomes 255; chroma 16 becomes 1, 128 stays 128, and 240
/// becomes 255. These are the ranges of ITU-R BT.601, BT.709 and BT.2100.
///
/// The depth must fit the type of the pixels, as [`depth_fits`](crate::depth_fits) tests.
pub fn to_full_range<T: Pixel>(
    source: &RowsRef<'_, T>,
    buffer: &mut [T],
    width: usize,
    height: usize,
    stride: usize,
    component: Component,
    depth: u8,
)
    requires fit { RowsFit width height stride (length buffer.old) }
    requires wide { width_of source.now ≡ width }
    requires high { height_of source.now ≡ height }
    requires depth { DepthFits T.BYTES depth }
    ensures table { strided_rows width height stride buffer.new
        ≡ converted (converted (pixel_by T.form (in_full_range component depth))) source.now }
    ensures rest { KeepsRest width height stride buffer.old buffer.new }
{
    match component {
        Component::Luma => map_into(
            source,
            buffer,
            width,
            height,
            stride,
            |p: T|
                requires { (8 ≤ depth) × (depth ≤ 16) × (2 ^ depth ≤ 256 ^ T.BYTES) }
                ensures { result ≡ pixel_by T.form (luma_in_full_range depth) p }
            { T::from_value(luma_to_full(p.into_u16(), depth)) },
        ),
        Component::Chroma => map_into(
            source,
            buffer,
            width,
            height,
            stride,
            |p: T|
                requires { (8 ≤ depth) × (depth ≤ 16) × (2 ^ depth ≤ 256 ^ T.BYTES) }
                ensures { result ≡ pixel_by T.form (chroma_in_full_range depth) p }
            { T::from_value(chroma_to_full(p.into_u16(), depth)) },
        ),
    }
}

/// Converts `source` from the full range to the limited range of bit depth `depth` and writes it into the rows in `buffer`.
/// `source` has the same size as the rows.
///
/// This is the inverse of [`to_full_range`] up to rounding. Let `k` be `2^(depth - 8)` and `peak` be `2^depth - 1`. A luma
/// value `v` becomes `16 * k + v * 219 * k / peak`, and a chroma value `v` becomes `128 * k + (v - 128 * k) * 224 * k / peak`.
/// The result is rounded to the nearest integer, halves up. At 8 bits, luma 0 becomes 16 and 255 becomes 235. A value above
/// `peak` is first replaced by `peak`.
///
/// The depth must fit the type of the pixels, as [`depth_fits`](crate::depth_fits) tests.
pub fn to_limited_range<T: Pixel>(
    source: &RowsRef<'_, T>,
    buffer: &mut [T],
    width: usize,
    height: usize,
    stride: usize,
    component: Component,
    depth: u8,
)
    requires fit { RowsFit width height stride (length buffer.old) }
    requires wide { width_of source.now ≡ width }
    requires high { height_of source.now ≡ height }
    requires depth { DepthFits T.BYTES depth }
    ensures table { strided_rows width height stride buffer.new
        ≡ converted (converted (pixel_by T.form (in_limited_range component depth))) source.now }
    ensures rest { KeepsRest width height stride buffer.old buffer.new }
{
    if T::BYTES == 1 {
        bytes_to_limited_range(source, buffer, width, height, stride, component);
        return;
    }
    match component {
        Component::Luma => map_into(
            source,
            buffer,
            width,
            height,
            stride,
            |p: T|
                requires { (8 ≤ depth) × (depth ≤ 16) × (2 ^ depth ≤ 256 ^ T.BYTES) }
                ensures { result ≡ pixel_by T.form (luma_in_limited_range depth) p }
            { T::from_value(luma_to_limited(p.into_u16(), depth)) },
        ),
        Component::Chroma => map_into(
            source,
            buffer,
            width,
            height,
            stride,
            |p: T|
                requires { (8 ≤ depth) × (depth ≤ 16) × (2 ^ depth ≤ 256 ^ T.BYTES) }
                ensures { result ≡ pixel_by T.form (chroma_in_limited_range depth) p }
            { T::from_value(chroma_to_limited(p.into_u16(), depth)) },
        ),
    }
}

/// Converts one-byte pixels to the limited range, with values computed in 16 bits.
fn bytes_to_limited_range<T: Pixel>(
    source: &RowsRef<'_, T>,
    buffer: &mut [T],
    width: usize,
    height: usize,
    stride: usize,
    component: Component,
)
    requires fit { RowsFit width height stride (length buffer.old) }
    requires wide { width_of source.now ≡ width }
    requires high { height_of source.now ≡ height }
    requires byte { T.BYTES ≡ 1 }
    ensures table { strided_rows width height stride buffer.new
        ≡ converted (converted (pixel_by T.form (in_limited_range component 8))) source.now }
    ensures rest { KeepsRest width height stride buffer.old buffer.new }
{
    match component {
        Component::Luma => map_into(
            source,
            buffer,
            width,
            height,
            stride,
            |p: T|
                requires { 256 ≤ 256 ^ T.BYTES }
                ensures { result ≡ pixel_by T.form (luma_in_limited_range 8) p }
            { T::from_value(luma_byte_to_limited(p.into_u16())) },
        ),
        Component::Chroma => map_into(
            source,
            buffer,
            width,
            height,
            stride,
            |p: T|
                requires { 256 ≤ 256 ^ T.BYTES }
                ensures { result ≡ pixel_by T.form (chroma_in_limited_range 8) p }
            { T::from_value(chroma_byte_to_limited(p.into_u16())) },
        ),
    }
}

//! Pictures converted to another bit depth.
ghost use Rattle.std.specs.Prelude.{◌≡◌, ◌^◌, ◌≤◌, length};
ghost use Rattle.v_frame.specs.Prelude.{height_of, strided_rows, width_of, KeepsRest, RowsFit};
ghost use Rattle.v_frame_convert.specs.Convert.{converted};
ghost use Rattle.v_frame_convert.specs.Depth.{at_depth, pixel_at_depth, DepthFits};

use super::map_into;
use crate::depth_change::DepthChange;
use v_frame::pixel::Pixel;
use v_frame::plane::RowsRef;

/// Converts the values of `source` from bit depth `from` to bit depth `to` and writes them into the rows in `buffer`. `source`
/// has the same size as the rows.
///
/// To a greater depth a value is shifted left, `value << (to - from)`: for example, 255 of 8 bits becomes 1020 of 10 bits. To a
/// smaller depth it is rounded to the nearest integer, halves up, and clipped to `2^to - 1`. A value above `2^from - 1` is
/// first replaced by `2^from - 1`.
///
/// Each depth must fit its type of pixels, as [`depth_fits`](crate::depth_fits) tests.
pub fn convert_depth<S: Pixel, T: Pixel>(
    source: &RowsRef<'_, S>,
    buffer: &mut [T],
    width: usize,
    height: usize,
    stride: usize,
    from: u8,
    to: u8,
)
    requires fit { RowsFit width height stride (length buffer.old) }
    requires wide { width_of source.now ≡ width }
    requires high { height_of source.now ≡ height }
    requires from { DepthFits S.BYTES from }
    requires to { DepthFits T.BYTES to }
    ensures table { strided_rows width height stride buffer.new
        ≡ converted (converted (pixel_at_depth S.form T.form from to)) source.now }
    ensures rest { KeepsRest width height stride buffer.old buffer.new }
{
    let change = DepthChange::new(source_depth::<S>(from), to);
    if from <= to {
        raise_rows(source, buffer, width, height, stride, change);
    } else {
        change_rows(source, buffer, width, height, stride, change);
    }
}

/// Returns `from`, as a constant for bytes. This saves a comparison for each pixel.
#[inline(always)]
fn source_depth<S: Pixel>(from: u8) -> u8
    requires { DepthFits S.BYTES from }
    ensures { result ≡ from }
{
    if S::BYTES == 1 { 8 } else { from }
}

/// Converts to a depth that is not smaller.
fn raise_rows<S: Pixel, T: Pixel>(
    source: &RowsRef<'_, S>,
    buffer: &mut [T],
    width: usize,
    height: usize,
    stride: usize,
    change: DepthChange,
)
    requires fit { RowsFit width height stride (length buffer.old) }
    requires wide { width_of source.now ≡ width }
    requires high { height_of source.now ≡ height }
    requires depth { 2 ^ change.to ≤ 256 ^ T.BYTES }
    requires up { change.from ≤ change.to }
    ensures table { strided_rows width height stride buffer.new
        ≡ converted (converted (pixel_at_depth S.form T.form change.from change.to)) source.now }
    ensures rest { KeepsRest width height stride buffer.old buffer.new }
{
    map_into(
        source,
        buffer,
        width,
        height,
        stride,
        |p: S|
            requires up { change.from ≤ change.to }
            requires fits { 2 ^ change.to ≤ 256 ^ T.BYTES }
            ensures { result ≡ T.form.pixel_of
                (at_depth change.from change.to (S.form.value p)) }
        { T::from_value(change.raise(p.into_u16())) },
    );
}

/// Converts to any depth.
fn change_rows<S: Pixel, T: Pixel>(
    source: &RowsRef<'_, S>,
    buffer: &mut [T],
    width: usize,
    height: usize,
    stride: usize,
    change: DepthChange,
)
    requires fit { RowsFit width height stride (length buffer.old) }
    requires wide { width_of source.now ≡ width }
    requires high { height_of source.now ≡ height }
    requires depth { 2 ^ change.to ≤ 256 ^ T.BYTES }
    ensures table { strided_rows width height stride buffer.new
        ≡ converted (converted (pixel_at_depth S.form T.form change.from change.to)) source.now }
    ensures rest { KeepsRest width height stride buffer.old buffer.new }
{
    map_into(
        source,
        buffer,
        width,
        height,
        stride,
        |p: S|
            requires fits { 2 ^ change.to ≤ 256 ^ T.BYTES }
            ensures { result ≡ T.form.pixel_of
                (at_depth change.from change.to (S.form.value p)) }
        { T::from_value(change.apply(p.into_u16())) },
    );
}

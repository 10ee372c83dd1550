//! Pictures resized by a box filter.
ghost use Rattle.std.specs.Prelude.{◌≡◌, ◌-◌, ◌*◌, ◌^◌, ◌<◌, ◌≤◌, ◌↔◌, ℕ, length, slice_get, Some, IsTrue};
ghost use Rattle.v_frame.specs.Prelude.{pixel_at, strided_rows, width_of, height_of, KeepsRest, RowsFit};
ghost use Rattle.v_frame_resize.specs.Resize.{row_sum, area_sum, area_mean, CanResize};
ghost use Rattle.v_frame_resize.specs.Spans.{IsSpan};

use crate::span::{Span, first_pixel, next_first, span_from};
use v_frame::pixel::Pixel;
use v_frame::plane::RowsRef;

/// Returns whether [`resize_area`] can resize a picture of `source_width` by `source_height` pixels to `width` by `height`
/// pixels: the products of both widths and of both heights must be below 2^64, and the source must have at most 2^48 pixels.
///
/// This holds for every source of at most 2^48 pixels if all widths and heights are below 2^32.
pub fn can_resize(source_width: usize, source_height: usize, width: usize, height: usize) -> bool
    ensures { IsTrue result ↔ CanResize source_width source_height width height }
{
    if source_width.checked_mul(width).is_none() || source_height.checked_mul(height).is_none() {
        return false;
    }
    match source_width.checked_mul(source_height) {
        Some(area) => area <= 281474976710656,
        None => false,
    }
}

/// Resizes `source` to the size of the rows in `buffer` with a box filter: each pixel is the mean of the area of `source` that
/// it covers. Source pixels that are covered only in part are weighted by the covered area.
///
/// The mean is computed exactly, then rounded once to the nearest integer, halves up. The sizes must pass the test of
/// [`can_resize`].
#[tactic(auto, using(v_frame_raster::proofs::tables::StridedWrites::row_ends))]
pub fn resize_area<T: Pixel>(
    source: &RowsRef<'_, T>,
    buffer: &mut [T],
    width: usize,
    height: usize,
    stride: usize,
)
    requires fit { RowsFit width height stride (length buffer.old) }
    requires countable { CanResize (width_of source.now) (height_of source.now) width height }
    ensures pixels { (x y : ℕ) → x < width → y < height
        → pixel_at (strided_rows width height stride buffer.new) x y
        ≡ Some (T.form.pixel_of (area_mean T.form source.now width height x y)) }
    ensures rest { KeepsRest width height stride buffer.old buffer.new }
{
    for y in 0..height {
        let start = stride * y;
        resize_row(source, &mut buffer[start..start + width], height, y);
    }
}

/// Writes row `y` of a target with this height. The width of the target is the length of `row`.
fn resize_row<T: Pixel>(source: &RowsRef<'_, T>, row: &mut [T], height: usize, y: usize)
    requires some { 0 < length row.old }
    requires within { y < height }
    requires countable { CanResize (width_of source.now) (height_of source.now) (length row.old) height }
    ensures { (x : ℕ) → x < length row.old → slice_get row.new x
        ≡ Some (T.form.pixel_of (area_mean T.form source.now (length row.old) height x y)) }
{
    let (source_width, source_height) = (source.width(), source.height());
    let area = source_width * source_height;
    let down = span_from(
        source_height,
        height,
        y,
        first_pixel(source_height, height, y),
    );
    let width = row.len();
    let mut first = 0;
    for x in 0..width {
        let across = span_from(source_width, width, x, first);
        let sum = sum_of_area(source, (width, height), (x, y), across, down);
        row[x] = T::from_value(((sum + area / 2) / area) as u16);
        first = next_first(source_width, width, x, across);
    }
}

/// Returns the sum of the source values that the target pixel at `place` covers, each multiplied by the number of covered
/// units. `size` is the size of the target.
#[inline(always)]
fn sum_of_area<T: Pixel>(
    source: &RowsRef<'_, T>,
    size: (usize, usize),
    place: (usize, usize),
    across: Span,
    down: Span,
) -> usize
    requires countable { CanResize (width_of source.now) (height_of source.now) size.0 size.1 }
    requires across { IsSpan (width_of source.now) size.0 place.0 across }
    requires down { IsSpan (height_of source.now) size.1 place.1 down }
    ensures value { result ≡ area_sum T.form source.now size.0 size.1 place.0 place.1 }
    ensures bound { result ≤ (256 ^ T.BYTES - 1) * (width_of source.now * height_of source.now) }
{
    let _sizes = (source.width(), source.height());
    let (width, x) = (size.0, place.0);
    let head = down.head * sum_of_row(source.visible_row(down.first), width, x, across);
    let last = down.stop - 1;
    if last == down.first {
        return head;
    }
    let mut inner = 0;
    for j in down.first + 1..last {
        inner += sum_of_row(source.visible_row(j), width, x, across);
    }
    let tail = down.tail * sum_of_row(source.visible_row(last), width, x, across);
    head + size.1 * inner + tail
}

/// Returns the sum of the values of a source row that a span covers, each multiplied by the number of covered units.
#[inline(always)]
fn sum_of_row<T: Pixel>(row: &[T], width: usize, x: usize, across: Span) -> usize
    requires countable { length row.now * width < 2 ^ 64 }
    requires small { length row.now ≤ 2 ^ 48 }
    requires across { IsSpan (length row.now) width x across }
    ensures value { result ≡ row_sum T.form width x row.now }
    ensures bound { result ≤ (256 ^ T.BYTES - 1) * length row.now }
{
    let head = across.head * usize::from(row[across.first].into_u16());
    let last = across.stop - 1;
    if last == across.first {
        return head;
    }
    let mut inner = 0;
    for i in across.first + 1..last {
        inner += usize::from(row[i].into_u16());
    }
    head + width * inner + across.tail * usize::from(row[last].into_u16())
}

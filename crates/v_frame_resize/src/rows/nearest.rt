//! Pictures resized by the nearest neighbor.
ghost use Rattle.std.specs.Prelude.{◌≡◌, ◌/◌, ◌^◌, ◌<◌, ◌≤◌, ℕ, Some, length, slice_get};
ghost use Rattle.v_frame.specs.Prelude.{pixel_at, strided_rows, width_of, height_of, KeepsRest, RowsFit};
ghost use Rattle.v_frame_resize.specs.Resize.{nearest};

use crate::center::{PARTS, first_center, half_step, next_center};
use v_frame::plane::RowsRef;

/// Resizes `source` to the size of the rows in `buffer` by the nearest neighbor: each pixel is the source pixel that contains
/// its center. If the center lies between two source pixels, the right one or the lower one is used.
///
/// The pixel at column `x` is the source pixel at column `(2 * x + 1) * source_width / (2 * width)`, rounded down, and rows are
/// chosen in the same way. All widths and heights are below 2^62.
#[tactic(auto, using(v_frame_raster::proofs::tables::StridedWrites::row_ends))]
pub fn resize_nearest<T: Copy>(
    source: &RowsRef<'_, T>,
    buffer: &mut [T],
    width: usize,
    height: usize,
    stride: usize,
)
    requires fit { RowsFit width height stride (length buffer.old) }
    requires wide { width < 2 ^ 62 }
    requires high { height < 2 ^ 62 }
    requires source_wide { width_of source.now < 2 ^ 62 }
    requires source_high { height_of source.now < 2 ^ 62 }
    ensures pixels { (x y : ℕ) → x < width → y < height
        → pixel_at (strided_rows width height stride buffer.new) x y ≡ pixel_at source.now
        (nearest (width_of source.now) width x) (nearest (height_of source.now) height y) }
    ensures rest { KeepsRest width height stride buffer.old buffer.new }
{
    let _width = source.width();
    let mut center = first_center(source.height(), height);
    for y in 0..height {
        let start = stride * y;
        nearest_row(
            &mut buffer[start..start + width],
            source.visible_row(center.index),
        );
        center = next_center(center);
    }
}

/// Sets each pixel of `out` to the pixel of `row` that contains its center.
fn nearest_row<T: Copy>(out: &mut [T], row: &[T])
    requires some { 0 < length out.old }
    requires row_some { 0 < length row.now }
    requires wide { length out.old < 2 ^ 62 }
    requires row_wide { length row.now < 2 ^ 62 }
    ensures { (x : ℕ) → x < length out.old
        → slice_get out.new x ≡ slice_get row.now (nearest (length row.now) (length out.old) x) }
{
    if out.len() <= 65536 && row.len() <= 65536 {
        nearest_by_parts(out, row);
    } else {
        nearest_by_centers(out, row);
    }
}

/// Sets each pixel of `out` to the pixel of `row` that contains its center, for rows of at most 65,536 pixels. The distance
/// between two centers is rounded up to whole parts of a source pixel. The parts are so small that no center moves into the
/// next pixel.
fn nearest_by_parts<T: Copy>(out: &mut [T], row: &[T])
    requires some { 0 < length out.old }
    requires row_some { 0 < length row.now }
    requires wide { length out.old ≤ 65536 }
    requires row_wide { length row.now ≤ 65536 }
    ensures { (x : ℕ) → x < length out.old
        → slice_get out.new x ≡ slice_get row.now (nearest (length row.now) (length out.old) x) }
{
    let half = half_step(row.len(), out.len());
    let mut place = half;
    let pairs = out.len() / 2;
    for pair in 0..pairs {
        let x = 2 * pair;
        let next = place + 2 * half;
        let (first, second) = (pixel_at_place(row, place), pixel_at_place(row, next));
        out[x] = first;
        out[x + 1] = second;
        place = next + 2 * half;
    }
    let last = 2 * pairs;
    if last < out.len() {
        out[last] = pixel_at_place(row, place);
    }
}

/// Returns the pixel of `row` at a position that is counted in parts of a pixel.
#[inline(always)]
fn pixel_at_place<T: Copy>(row: &[T], place: usize) -> T
    requires { place / 1099511627776 < length row.now }
    ensures { slice_get row.now (place / 1099511627776) ≡ Some result }
{
    row[place / PARTS]
}

/// Sets each pixel of `out` to the pixel of `row` that contains its center, for rows of any length.
fn nearest_by_centers<T: Copy>(out: &mut [T], row: &[T])
    requires some { 0 < length out.old }
    requires row_some { 0 < length row.now }
    requires wide { length out.old < 2 ^ 62 }
    requires row_wide { length row.now < 2 ^ 62 }
    ensures { (x : ℕ) → x < length out.old
        → slice_get out.new x ≡ slice_get row.now (nearest (length row.now) (length out.old) x) }
{
    let mut center = first_center(row.len(), out.len());
    for x in 0..out.len() {
        out[x] = row[center.index];
        center = next_center(center);
    }
}

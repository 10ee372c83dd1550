//! Operations that write the rows of a buffer: map each pixel, combine it with a pixel of another picture, fill, or write
//! another picture in half its size.
ghost use Rattle.std.specs.Prelude.{◌≡◌, ◌+◌, ◌*◌, ◌<◌, ℕ, List, length, replicate, slice_get, Some};
ghost use Rattle.v_frame.specs.Prelude.{halved, height_of, strided_rows, width_of, KeepsRest, RowsFit};
ghost use Rattle.v_frame_ops.specs.Change.{mapped, combined, MapsPixels, CombinesPixels};
ghost use Rattle.v_frame_ops.specs.Rows.{MapsItems, CombinesItems};

use v_frame::pixel::{Pixel, fill_row};
use v_frame::plane::RowsRef;

/// Sets each pixel of the rows in `buffer` to `pixel`.
#[tactic(auto, using(v_frame_raster::proofs::tables::StridedWrites::row_ends))]
pub fn fill<T: Pixel>(buffer: &mut [T], width: usize, height: usize, stride: usize, pixel: T)
    requires { RowsFit width height stride (length buffer.old) }
    ensures table { strided_rows width height stride buffer.new
        ≡ replicate height (replicate width pixel) }
    ensures rest { KeepsRest width height stride buffer.old buffer.new }
{
    for y in 0..height {
        let start = stride * y;
        fill_row(&mut buffer[start..start + width], pixel);
    }
}

/// Replaces each pixel of the rows in `buffer` by the result of `change` for it. `change` must accept every pixel of the type.
pub fn map_pixels<T: Pixel, F: Fn(T) -> T>(
    buffer: &mut [T],
    width: usize,
    height: usize,
    stride: usize,
    change: F,
)
    requires fit { RowsFit width height stride (length buffer.old) }
    requires callable { F.IsAlwaysCallable change }
    ensures pixels { MapsPixels (F.post change) (strided_rows width height stride buffer.old)
        (strided_rows width height stride buffer.new) }
    ensures mapped { (g : T → T) → ((p q : T) → F.post change p q → q ≡ g p)
        → strided_rows width height stride buffer.new
        ≡ mapped (mapped g) (strided_rows width height stride buffer.old) }
    ensures rest { KeepsRest width height stride buffer.old buffer.new }
{
    map_rows(buffer, width, height, stride, &change);
}

/// Replaces each pixel of the rows in `buffer` by the result of `combine` for it and the pixel of `other` in the same column
/// and row. `combine` must accept every pair of pixels of the type. `other` has the same size as the rows.
pub fn combine_pixels<T: Pixel, F: Fn(T, T) -> T>(
    buffer: &mut [T],
    width: usize,
    height: usize,
    stride: usize,
    other: &RowsRef<'_, T>,
    combine: F,
)
    requires fit { RowsFit width height stride (length buffer.old) }
    requires callable { F.IsAlwaysCallable combine }
    requires wide { width_of other.now ≡ width }
    requires high { height_of other.now ≡ height }
    ensures pixels { CombinesPixels (F.post combine) (strided_rows width height stride buffer.old)
        other.now (strided_rows width height stride buffer.new) }
    ensures combined { (g : T → T → T) → ((p q r : T) → F.post combine p q r → r ≡ g p q)
        → strided_rows width height stride buffer.new
        ≡ combined (combined g) (strided_rows width height stride buffer.old) other.now }
    ensures rest { KeepsRest width height stride buffer.old buffer.new }
{
    combine_rows(buffer, width, height, stride, other, &combine);
}

/// Writes `source` in half its width and half its height into the rows in `buffer`. Each pixel is the mean of a block of 2 by 2
/// source pixels, rounded to the nearest integer, halves up. The size of `source` is exactly twice the size of the rows.
#[tactic(auto, using(v_frame_raster::proofs::tables::StridedWrites::row_ends))]
pub fn downscale<T: Pixel>(
    source: &RowsRef<'_, T>,
    buffer: &mut [T],
    width: usize,
    height: usize,
    stride: usize,
)
    requires fit { RowsFit width height stride (length buffer.old) }
    requires wide { width_of source.now ≡ 2 * width }
    requires high { height_of source.now ≡ 2 * height }
    ensures rows { (y : ℕ) (top bottom : List T) → slice_get source.now (2 * y) ≡ Some top
        → slice_get source.now (2 * y + 1) ≡ Some bottom
        → slice_get (strided_rows width height stride buffer.new) y
        ≡ Some (halved T.form top bottom) }
    ensures rest { KeepsRest width height stride buffer.old buffer.new }
{
    // Reading the sizes shows that they fit their type, and so do the row numbers below them.
    let _sizes = (source.width(), source.height());
    for y in 0..height {
        let top = source.visible_row(2 * y);
        let bottom = source.visible_row(2 * y + 1);
        let start = stride * y;
        T::halve_rows(&mut buffer[start..start + width], top, bottom);
    }
}

/// Replaces each pixel of the rows by the result of `change` for it, row by row.
#[tactic(auto, using(v_frame_raster::proofs::tables::StridedWrites::row_ends))]
fn map_rows<T: Copy, F: Fn(T) -> T>(
    buffer: &mut [T],
    width: usize,
    height: usize,
    stride: usize,
    change: &F,
)
    requires fit { RowsFit width height stride (length buffer.old) }
    requires callable { F.IsAlwaysCallable change.now }
    ensures rows { MapsItems (MapsItems (F.post change.now))
        (strided_rows width height stride buffer.old)
        (strided_rows width height stride buffer.new) }
    ensures rest { KeepsRest width height stride buffer.old buffer.new }
{
    for y in 0..height {
        let start = stride * y;
        map_row(&mut buffer[start..start + width], change);
    }
}

/// Replaces each pixel of `row` by the result of `change` for it.
fn map_row<T: Copy, F: Fn(T) -> T>(row: &mut [T], change: &F)
    requires { F.IsAlwaysCallable change.now }
    ensures { MapsItems (F.post change.now) row.old row.new }
{
    for x in 0..row.len() {
        row[x] = change(row[x]);
    }
}

/// Replaces each pixel of the rows by the result of `combine` for it and the pixel of `other` at the same position, row by row.
#[tactic(auto, using(v_frame_raster::proofs::tables::StridedWrites::row_ends))]
fn combine_rows<T: Copy, F: Fn(T, T) -> T>(
    buffer: &mut [T],
    width: usize,
    height: usize,
    stride: usize,
    other: &RowsRef<'_, T>,
    combine: &F,
)
    requires fit { RowsFit width height stride (length buffer.old) }
    requires callable { F.IsAlwaysCallable combine.now }
    requires wide { width_of other.now ≡ width }
    requires high { height_of other.now ≡ height }
    ensures rows { CombinesItems (CombinesItems (F.post combine.now))
        (strided_rows width height stride buffer.old) other.now
        (strided_rows width height stride buffer.new) }
    ensures rest { KeepsRest width height stride buffer.old buffer.new }
{
    for y in 0..height {
        let start = stride * y;
        let row = &mut buffer[start..start + width];
        // The slice is as long as `row`, so the compiler drops the length checks of the loop over the row.
        combine_row(row, &other.visible_row(y)[..width], combine);
    }
}

/// Replaces each pixel of `row` by the result of `combine` for it and the pixel of `other` at the same index.
fn combine_row<T: Copy, F: Fn(T, T) -> T>(row: &mut [T], other: &[T], combine: &F)
    requires callable { F.IsAlwaysCallable combine.now }
    requires wide { length other.now ≡ length row.old }
    ensures { CombinesItems (F.post combine.now) row.old other.now row.new }
{
    for x in 0..row.len() {
        row[x] = combine(row[x], other[x]);
    }
}

//! Padding filled with the edge pixels of the picture. Motion search and filters need it when they read past the edge of a
//! plane.
ghost use Rattle.std.specs.Prelude.{◌≡◌, ◌≢◌, ◌+◌, ◌-◌, ◌<◌, ◌≤◌, ◌⊎◌, ℕ, length, replicate, slice_get, Some};
ghost use Rattle.v_frame.specs.Prelude.{IsWhole, pixel_at, raster, stride_of, alloc_height_of, table_of, whole_rows};
ghost use Rattle.v_frame_ops.specs.Border.{nearest, IsPadded};

use crate::laws::whole_rows_hold_pixels;
use v_frame::pixel::{Pixel, fill_row};
use v_frame::plane::{Plane, PlaneGeometry, split_row_mut, visible_rows_mut};

/// Fills the padding of `plane` by replicating the edge pixels: each padding pixel becomes a copy of the nearest visible pixel,
/// and each corner a copy of the nearest corner pixel. The visible pixels stay unchanged.
pub fn pad<T: Pixel>(plane: &mut Plane<T>)
    ensures padded { IsPadded plane.new }
    ensures table { table_of plane.new ≡ table_of plane.old }
    ensures geometry { plane.new.geometry ≡ plane.old.geometry }
{
    let geometry = plane.geometry();
    pad_buffer(plane.data_mut(), geometry);
}

/// Fills the padding of `buffer` by replicating the edge pixels, as [`pad`] does. `buffer` is the whole buffer of a plane with
/// this `geometry`, its padding included, and may be kept outside a [`Plane`]. The visible pixels stay unchanged.
pub fn pad_buffer<T: Pixel>(buffer: &mut [T], geometry: PlaneGeometry)
    requires { IsWhole geometry buffer.old }
    ensures padded { IsPadded (raster geometry buffer.new) }
    ensures table { table_of (raster geometry buffer.new) ≡ table_of (raster geometry buffer.old) }
{
    let _width = geometry.width();
    continue_picture(buffer, geometry);
}

/// Sets each entry of `buffer`, the whole buffer of a plane with this `geometry`, to the nearest visible pixel.
fn continue_picture<T: Copy>(buffer: &mut [T], geometry: PlaneGeometry)
    requires { IsWhole geometry buffer.old }
    ensures padded { (x y : ℕ) → x < stride_of geometry → y < alloc_height_of geometry
        → pixel_at (whole_rows (raster geometry buffer.new)) x y
        ≡ pixel_at (table_of (raster geometry buffer.old))
        (nearest geometry.pad_left geometry.width x) (nearest geometry.pad_top geometry.height y) }
    ensures visible { (x y : ℕ) → x < geometry.width → y < geometry.height
        → pixel_at (table_of (raster geometry buffer.new)) x y
        ≡ pixel_at (table_of (raster geometry buffer.old)) x y }
{
    whole_rows_hold_pixels::<T>();
    let _width = geometry.width();
    extend_picture(buffer, geometry);
}

/// Extends the rows of the picture to both sides, then copies the first extended row upwards and the last one downwards.
fn extend_picture<T: Copy>(buffer: &mut [T], geometry: PlaneGeometry)
    requires { IsWhole geometry buffer.old }
    ensures { (x y : ℕ) → x < stride_of geometry → y < alloc_height_of geometry
        → pixel_at (whole_rows (raster geometry buffer.new)) x y
        ≡ pixel_at (whole_rows (raster geometry buffer.old))
        (geometry.pad_left + nearest geometry.pad_left geometry.width x)
        (geometry.pad_top + nearest geometry.pad_top geometry.height y) }
{
    let whole = geometry.whole_buffer();
    let (top, height) = (geometry.pad_top(), geometry.height());
    extend_rows(
        buffer,
        whole,
        top,
        top + height,
        geometry.pad_left(),
        geometry.width(),
    );
    repeat_rows(buffer, whole, top, height);
}

/// Extends the rows `top..bottom` to both sides. In each of these rows the picture is the `width` pixels from column `left` on.
fn extend_rows<T: Copy>(
    buffer: &mut [T],
    whole: PlaneGeometry,
    top: usize,
    bottom: usize,
    left: usize,
    width: usize,
)
    requires whole { IsWhole whole buffer.old }
    requires high { bottom ≤ whole.height }
    requires some { 0 < width }
    requires wide { left + width ≤ whole.width }
    ensures inside { (x y : ℕ) → x < whole.width → top ≤ y → y < bottom
        → pixel_at (table_of (raster whole buffer.new)) x y
        ≡ pixel_at (table_of (raster whole buffer.old)) (left + nearest left width x) y }
{
    for y in top..bottom {
        extend_row_at(buffer, whole, y, left, width);
    }
}

/// Extends row `y` to both sides. The picture in that row is the `width` pixels from column `left` on.
fn extend_row_at<T: Copy>(
    buffer: &mut [T],
    whole: PlaneGeometry,
    y: usize,
    left: usize,
    width: usize,
)
    requires whole { IsWhole whole buffer.old }
    requires high { y < whole.height }
    requires some { 0 < width }
    requires wide { left + width ≤ whole.width }
    ensures row { (x : ℕ) → x < whole.width → pixel_at (table_of (raster whole buffer.new)) x y
        ≡ pixel_at (table_of (raster whole buffer.old)) (left + nearest left width x) y }
    ensures others { (k : ℕ) → k ≢ y → slice_get (table_of (raster whole buffer.new)) k
        ≡ slice_get (table_of (raster whole buffer.old)) k }
{
    let (row, _) = split_row_mut(buffer, whole, y);
    extend_row(row, left, width);
}

/// Replicates the edge pixels of a row to both sides. The picture in `row` is the `width` pixels from column `left` on.
fn extend_row<T: Copy>(row: &mut [T], left: usize, width: usize)
    requires some { 0 < width }
    requires wide { left + width ≤ length row.old }
    ensures { (x : ℕ) → x < length row.old
        → slice_get row.new x ≡ slice_get row.old (left + nearest left width x) }
{
    let first = row[left];
    let last = row[left + width - 1];
    fill_part(row, 0, left, first);
    fill_part(row, left + width, row.len(), last);
}

/// Sets the pixels `start..end` of `row` to `pixel`.
#[inline(always)]
fn fill_part<T: Copy>(row: &mut [T], start: usize, end: usize, pixel: T)
    requires order { start ≤ end }
    requires within { end ≤ length row.old }
    ensures before { (x : ℕ) → x < start → slice_get row.new x ≡ slice_get row.old x }
    ensures inside { (x : ℕ) → start ≤ x → x < end → slice_get row.new x ≡ Some pixel }
    ensures behind { (x : ℕ) → end ≤ x → slice_get row.new x ≡ slice_get row.old x }
{
    if end - start < 16 {
        fill_row(&mut row[start..end], pixel);
    } else {
        fill_blocks(row, start, end, pixel);
    }
}

/// Sets the pixels `start..end` of `row` to `pixel`, in blocks of 16. Padding is often only one or two blocks wide, so a loop
/// over single pixels would spend most of its time on entering and leaving. The last block may overlap the one before it.
#[inline(always)]
fn fill_blocks<T: Copy>(row: &mut [T], start: usize, end: usize, pixel: T)
    requires order { start + 16 ≤ end }
    requires within { end ≤ length row.old }
    ensures before { (x : ℕ) → x < start → slice_get row.new x ≡ slice_get row.old x }
    ensures inside { (x : ℕ) → start ≤ x → x < end → slice_get row.new x ≡ Some pixel }
    ensures behind { (x : ℕ) → end ≤ x → slice_get row.new x ≡ slice_get row.old x }
{
    for block in 0..(end - start - 1) / 16 {
        fill_block(row, start + 16 * block, pixel);
    }
    fill_block(row, end - 16, pixel);
}

/// Sets the 16 pixels of `row` from column `start` on to `pixel`.
#[inline(always)]
fn fill_block<T: Copy>(row: &mut [T], start: usize, pixel: T)
    requires { start + 16 ≤ length row.old }
    ensures before { (x : ℕ) → x < start → slice_get row.new x ≡ slice_get row.old x }
    ensures inside { (x : ℕ) → start ≤ x → x < start + 16 → slice_get row.new x ≡ Some pixel }
    ensures behind { (x : ℕ) → start + 16 ≤ x → slice_get row.new x ≡ slice_get row.old x }
    ensures wide { length row.new ≡ length row.old }
{
    fill_sixteen(&mut row[start..start + 16], pixel);
}

/// Sets all of `pixels`, which are 16, to `pixel`.
#[inline(always)]
fn fill_sixteen<T: Copy>(pixels: &mut [T], pixel: T)
    requires { length pixels.old ≡ 16 }
    ensures { pixels.new ≡ replicate (length pixels.old) pixel }
{
    pixels.copy_from_slice(&[pixel; 16]);
}

/// Copies row `top` into each row above it, and row `top + height - 1` into each row below it. These two are the first and the
/// last row of the picture.
fn repeat_rows<T: Copy>(buffer: &mut [T], whole: PlaneGeometry, top: usize, height: usize)
    requires whole { IsWhole whole buffer.old }
    requires some { 0 < height }
    requires high { top + height ≤ whole.height }
    ensures { (y : ℕ) → y < whole.height → slice_get (table_of (raster whole buffer.new)) y
        ≡ slice_get (table_of (raster whole buffer.old)) (top + nearest top height y) }
{
    repeat_row_up(buffer, whole, top);
    repeat_row_down(buffer, whole, top + height);
}

/// Copies row `from` into each row above it.
fn repeat_row_up<T: Copy>(buffer: &mut [T], whole: PlaneGeometry, from: usize)
    requires whole { IsWhole whole buffer.old }
    requires high { from < whole.height }
    ensures above { (y : ℕ) → y < from → slice_get (table_of (raster whole buffer.new)) y
        ≡ slice_get (table_of (raster whole buffer.old)) from }
    ensures others { (y : ℕ) → from ≤ y → slice_get (table_of (raster whole buffer.new)) y
        ≡ slice_get (table_of (raster whole buffer.old)) y }
{
    for y in 0..from {
        let (above, row) = visible_rows_mut(buffer, whole, y, from);
        above.copy_from_slice(row);
    }
}

/// Copies row `end - 1` into each row from row `end` on.
fn repeat_row_down<T: Copy>(buffer: &mut [T], whole: PlaneGeometry, end: usize)
    requires whole { IsWhole whole buffer.old }
    requires some { 0 < end }
    requires high { end ≤ whole.height }
    ensures below { (y : ℕ) → end ≤ y → y < whole.height
        → slice_get (table_of (raster whole buffer.new)) y
        ≡ slice_get (table_of (raster whole buffer.old)) (end - 1) }
    ensures others { (y : ℕ) → y < end → slice_get (table_of (raster whole buffer.new)) y
        ≡ slice_get (table_of (raster whole buffer.old)) y }
{
    for y in end..whole.height() {
        let (row, below) = visible_rows_mut(buffer, whole, end - 1, y);
        below.copy_from_slice(row);
    }
}

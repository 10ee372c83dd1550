//! Filters: one that changes single pixels, one that combines two planes, and one that reads the neighbors of a pixel.
ghost use Rattle.std.specs.Prelude.{◌≡◌, ◌+◌, ◌-◌, ◌/◌, ◌<◌, ◌≤◌, ℕ, length, slice_get, Some};
ghost use Rattle.v_frame.specs.Prelude.{KeepsBorder, KeepsBorders, pixel_at, rectangle, table_of, tables_of, whole_rows, with_table};
ghost use Rattle.v_frame_ops.specs.Prelude.{combined, mapped, IsPadded};
ghost use Rattle.example_callers.specs.Filters.{box_mean, mean_of_nine, three_of, HasBorderAllRound};

use v_frame::frame::Frame;
use v_frame::plane::{Plane, PlaneRef};
use v_frame_ops::laws::rectangles_hold_pixels;
use v_frame_ops::{combine_pixels, map_pixels, pad};

/// Halves each pixel of a plane, rounded down.
pub fn halve_pixels(plane: &mut Plane<u8>)
    ensures table { table_of plane.new ≡ mapped (mapped (λ pixel. pixel / 2)) (table_of plane.old) }
    ensures border { KeepsBorder plane.old plane.new }
{
    map_pixels(plane, |pixel| pixel / 2);
}

/// Decreases each luma pixel by `by`, but to at least 0. The chroma planes are unchanged.
pub fn darken(frame: &mut Frame<u8>, by: u8)
    ensures tables { tables_of frame.new ≡ with_table (tables_of frame.old) 0
        (mapped (mapped (λ pixel. pixel - by)) (table_of frame.old.y_plane)) }
    ensures borders { KeepsBorders frame.old frame.new }
{
    map_pixels(&mut frame.y_plane, |pixel| pixel.saturating_sub(by));
}

/// Mixes a plane with another plane of the same size: each pixel becomes the average of both, rounded down.
pub fn mix_with(plane: &mut Plane<u8>, other: &PlaneRef<'_, u8>)
    requires wide { other.now.geometry.width ≡ plane.old.geometry.width }
    requires high { other.now.geometry.height ≡ plane.old.geometry.height }
    ensures table { table_of plane.new ≡ combined (combined (λ p q. (p + q) / 2))
        (table_of plane.old) (table_of other.now) }
    ensures border { KeepsBorder plane.old plane.new }
{
    combine_pixels(plane, other, |p, q| p.midpoint(q));
}

/// Writes a softened copy of `plane` into `target`: each pixel is the mean of the pixel and its eight neighbors, rounded down.
/// Positions past the edge have the value of the nearest pixel, which the border of `plane` holds afterwards.
pub fn soften(plane: &mut Plane<u8>, target: &mut Plane<u8>)
    requires border { HasBorderAllRound plane.old.geometry }
    requires wide { target.old.geometry.width ≡ plane.old.geometry.width }
    requires high { target.old.geometry.height ≡ plane.old.geometry.height }
    ensures blurred { (x y : ℕ) → x < target.old.geometry.width → y < target.old.geometry.height
        → pixel_at (table_of target.new) x y ≡ Some (box_mean (table_of plane.old) x y) }
    ensures border { KeepsBorder target.old target.new }
    ensures same { table_of plane.new ≡ table_of plane.old }
{
    pad(plane);
    box_blur(plane, target);
}

/// Blurs `source` into `target` as [`soften`] does. The border of `source` must already repeat its edge pixels, as [`pad`]
/// makes it.
pub fn box_blur(source: &Plane<u8>, target: &mut Plane<u8>)
    requires padded { IsPadded source.now }
    requires border { HasBorderAllRound source.now.geometry }
    requires wide { target.old.geometry.width ≡ source.now.geometry.width }
    requires high { target.old.geometry.height ≡ source.now.geometry.height }
    ensures blurred { (x y : ℕ) → x < target.old.geometry.width → y < target.old.geometry.height
        → pixel_at (table_of target.new) x y ≡ Some (box_mean (table_of source.now) x y) }
    ensures border { KeepsBorder target.old target.new }
{
    rectangles_hold_pixels::<u8>();
    let _size = (source.width(), source.height());
    let around = one_pixel_around(source);
    blur_inside(&around, target);
}

/// Returns the visible pixels and one pixel of the border on each side as a plane.
fn one_pixel_around(plane: &Plane<u8>) -> PlaneRef<'_, u8>
    requires { HasBorderAllRound plane.now.geometry }
    ensures table { let g = plane.now.geometry in
        table_of result ≡ rectangle (g.pad_left - 1) (g.pad_top - 1)
        (g.width + 2) (g.height + 2) (whole_rows plane.now) }
    ensures wide { result.geometry.width ≡ plane.now.geometry.width + 2 }
    ensures high { result.geometry.height ≡ plane.now.geometry.height + 2 }
{
    let geometry = plane.geometry();
    let left = geometry.pad_left() - 1;
    let top = geometry.pad_top() - 1;
    let (width, height) = (geometry.width() + 2, geometry.height() + 2);
    let whole = PlaneRef::new(geometry.whole_buffer(), plane.data()).unwrap();
    whole.visible_region(left, top, width, height)
}

/// Blurs all but the outermost pixels of `source` into `target`, which is smaller by two in each direction.
fn blur_inside(source: &PlaneRef<'_, u8>, target: &mut Plane<u8>)
    requires wide { source.now.geometry.width ≡ target.old.geometry.width + 2 }
    requires high { source.now.geometry.height ≡ target.old.geometry.height + 2 }
    ensures blurred { (x y : ℕ) → x < target.old.geometry.width → y < target.old.geometry.height
        → pixel_at (table_of target.new) x y
        ≡ Some (mean_of_nine (pixel_at (table_of source.now)) x y) }
    ensures border { KeepsBorder target.old target.new }
{
    let _rows = source.height();
    for y in 0..target.height() {
        let above = source.visible_row(y);
        let row = source.visible_row(y + 1);
        let below = source.visible_row(y + 2);
        blur_row(target.visible_row_mut(y), above, row, below);
    }
}

/// Sets each pixel of `target` to the mean of nine pixels: three of each of the other rows, which are longer by two.
fn blur_row(target: &mut [u8], above: &[u8], row: &[u8], below: &[u8])
    requires above { length above.now ≡ length target.old + 2 }
    requires row { length row.now ≡ length target.old + 2 }
    requires below { length below.now ≡ length target.old + 2 }
    ensures { (x : ℕ) → x < length target.old → slice_get target.new x ≡ Some
        ((three_of (slice_get above.now) x + three_of (slice_get row.now) x
        + three_of (slice_get below.now) x) / 9) }
{
    for x in 0..target.len() {
        let sum = sum_of_three(above, x) + sum_of_three(row, x) + sum_of_three(below, x);
        target[x] = (sum / 9) as u8;
    }
}

/// Returns the sum of three pixels of a row, from column `x` on.
fn sum_of_three(row: &[u8], x: usize) -> u16
    requires { x + 2 < length row.now }
    ensures value { result ≡ three_of (slice_get row.now) x }
    ensures fits { result ≤ 765 }
{
    u16::from(row[x]) + u16::from(row[x + 1]) + u16::from(row[x + 2])
}

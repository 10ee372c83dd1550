//! Operations that write the visible pixels of a plane: map each pixel, combine it with a pixel of another plane, fill, or copy
//! a rectangle. The padding stays unchanged.
ghost use Rattle.std.specs.Prelude.{◌≡◌, ◌+◌, ◌<◌, ◌≤◌, ◌⊎◌, ℕ, replicate, slice_get, Some};
ghost use Rattle.v_frame.specs.Prelude.{KeepsBorder, pixel_at, table_of};
ghost use Rattle.v_frame_ops.specs.Change.{mapped, combined, MapsPixels, CombinesPixels};

use crate::rows;
use v_frame::pixel::Pixel;
use v_frame::plane::{Plane, PlaneRef, VisibleMut, copy_rows};

/// Replaces each visible pixel of `plane` by the result of `change` for it.
///
/// `change` must accept every pixel of the type. It receives the pixel only, not its column and row. The padding stays
/// unchanged. The compiler vectorizes a simple `change`, for example a saturating addition or a shift.
pub fn map_pixels<T: Pixel, F: Fn(T) -> T>(plane: &mut Plane<T>, change: F)
    requires { F.IsAlwaysCallable change }
    ensures pixels { MapsPixels (F.post change) (table_of plane.old) (table_of plane.new) }
    ensures mapped { (g : T → T) → ((p q : T) → F.post change p q → q ≡ g p)
        → table_of plane.new ≡ mapped (mapped g) (table_of plane.old) }
    ensures border { KeepsBorder plane.old plane.new }
{
    let VisibleMut {
        entries,
        width,
        height,
        stride,
    } = plane.visible_mut();
    rows::map_pixels(entries, width, height, stride, change);
}

/// Replaces each visible pixel of `plane` by the result of `combine` for it and the pixel of `other` in the same column and
/// row.
///
/// `combine` must accept every pair of pixels of the type. Both planes have the same width and height. The padding stays
/// unchanged.
pub fn combine_pixels<T: Pixel, F: Fn(T, T) -> T>(
    plane: &mut Plane<T>,
    other: &PlaneRef<'_, T>,
    combine: F,
)
    requires callable { F.IsAlwaysCallable combine }
    requires wide { other.now.geometry.width ≡ plane.old.geometry.width }
    requires high { other.now.geometry.height ≡ plane.old.geometry.height }
    ensures pixels { CombinesPixels (F.post combine) (table_of plane.old) (table_of other.now)
        (table_of plane.new) }
    ensures combined { (g : T → T → T) → ((p q r : T) → F.post combine p q r → r ≡ g p q)
        → table_of plane.new ≡ combined (combined g) (table_of plane.old) (table_of other.now) }
    ensures border { KeepsBorder plane.old plane.new }
{
    let other = other.as_rows_ref();
    let VisibleMut {
        entries,
        width,
        height,
        stride,
    } = plane.visible_mut();
    rows::combine_pixels(entries, width, height, stride, &other, combine);
}

/// Sets each visible pixel of `plane` to `pixel`. The padding stays unchanged.
pub fn fill<T: Pixel>(plane: &mut Plane<T>, pixel: T)
    ensures rows { (y : ℕ) → y < plane.old.geometry.height
        → slice_get (table_of plane.new) y ≡ Some (replicate plane.old.geometry.width pixel) }
    ensures pixels { (x y : ℕ) → x < plane.old.geometry.width → y < plane.old.geometry.height
        → pixel_at (table_of plane.new) x y ≡ Some pixel }
    ensures border { KeepsBorder plane.old plane.new }
{
    let VisibleMut {
        entries,
        width,
        height,
        stride,
    } = plane.visible_mut();
    rows::fill(entries, width, height, stride, pixel);
}

/// Copies all visible pixels of `source` into `target`. The top left pixel of `source` is written to column `x` of row `y`.
///
/// The whole of `source` must fit inside `target` at this position; [`copy_region_clipped`](crate::copy_region_clipped) has no
/// such limit. The other pixels of `target` and its padding stay unchanged.
pub fn copy_region<T: Pixel>(source: &PlaneRef<'_, T>, target: &mut Plane<T>, x: usize, y: usize)
    requires wide { x + source.now.geometry.width ≤ target.old.geometry.width }
    requires high { y + source.now.geometry.height ≤ target.old.geometry.height }
    ensures inside { (i j : ℕ) → i < source.now.geometry.width → j < source.now.geometry.height
        → pixel_at (table_of target.new) (x + i) (y + j) ≡ pixel_at (table_of source.now) i j }
    ensures beside { (i j : ℕ) → ((i < x) ⊎ (x + source.now.geometry.width ≤ i))
        ⊎ ((j < y) ⊎ (y + source.now.geometry.height ≤ j))
        → pixel_at (table_of target.new) i j ≡ pixel_at (table_of target.old) i j }
    ensures border { KeepsBorder target.old target.new }
{
    let VisibleMut {
        entries,
        width,
        height,
        stride,
    } = target.visible_region_mut(x, y, source.width(), source.height());
    let source = source.as_rows_ref();
    copy_rows(&source, entries, width, height, stride);
}

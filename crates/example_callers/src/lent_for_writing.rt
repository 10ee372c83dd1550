//! Visible rows that are lent to calls which write rows of a buffer.
ghost use Rattle.std.specs.Prelude.{◌≡◌, ℕ, ◌+◌, ◌<◌, ◌≤◌, ◌⊎◌, Some, replicate};
ghost use Rattle.v_frame.specs.Prelude.{IsInside, KeepsBorder, pixel_at, table_of};

use v_frame::pixel::Pixel;
use v_frame::plane::{Plane, VisibleMut};
use v_frame_ops::rows;

/// Sets each visible pixel to `pixel`.
pub fn fill_visible<T: Pixel>(plane: &mut Plane<T>, pixel: T)
    ensures table { table_of plane.new
        ≡ replicate plane.old.geometry.height (replicate plane.old.geometry.width pixel) }
    ensures border { KeepsBorder plane.old plane.new }
{
    let VisibleMut {
        entries,
        width,
        height,
        stride,
    } = plane.visible_mut();
    rows::fill(entries, width, height, stride, pixel);
}

/// Sets each pixel of a rectangle to `pixel`. The rectangle begins at column `x` of row `y`, and must lie inside the picture.
pub fn fill_part<T: Pixel>(
    plane: &mut Plane<T>,
    x: usize,
    y: usize,
    width: usize,
    height: usize,
    pixel: T,
)
    requires { IsInside plane.old.geometry x y width height }
    ensures inside { (i j : ℕ) → i < width → j < height
        → pixel_at (table_of plane.new) (x + i) (y + j)
        ≡ pixel_at (replicate height (replicate width pixel)) i j }
    ensures beside { (i j : ℕ) → ((i < x) ⊎ (x + width ≤ i)) ⊎ ((j < y) ⊎ (y + height ≤ j))
        → pixel_at (table_of plane.new) i j ≡ pixel_at (table_of plane.old) i j }
    ensures border { KeepsBorder plane.old plane.new }
{
    let VisibleMut {
        entries,
        width,
        height,
        stride,
    } = plane.visible_region_mut(x, y, width, height);
    rows::fill(entries, width, height, stride, pixel);
}

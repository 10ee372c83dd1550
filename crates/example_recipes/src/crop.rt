//! A part of a picture, copied into a plane.
ghost use Rattle.std.specs.Prelude.{◌≡◌, ◌+◌, ◌<◌, ◌≤◌, ℕ};
ghost use Rattle.v_frame.specs.Prelude.{KeepsBorder, pixel_at, table_of};

use v_frame::pixel::Pixel;
use v_frame::plane::{Plane, PlaneRef};
use v_frame_ops::copy_region;
use v_frame_ops::laws::rectangles_hold_pixels;

/// Copies a rectangle of `picture` into `plane`. The rectangle begins at column `x` of row `y`, and has the size of `plane`.
pub fn crop<T: Pixel>(picture: &PlaneRef<'_, T>, x: usize, y: usize, plane: &mut Plane<T>)
    requires wide { x + plane.old.geometry.width ≤ picture.now.geometry.width }
    requires high { y + plane.old.geometry.height ≤ picture.now.geometry.height }
    ensures part { (i j : ℕ) → i < plane.old.geometry.width → j < plane.old.geometry.height
        → pixel_at (table_of plane.new) i j ≡ pixel_at (table_of picture.now) (x + i) (y + j) }
    ensures border { KeepsBorder plane.old plane.new }
{
    rectangles_hold_pixels::<T>();
    let part = picture.visible_region(x, y, plane.width(), plane.height());
    copy_region(&part, plane, 0, 0);
}

//! Pictures that are combined: a picture on a background of one color.
ghost use Rattle.std.specs.Prelude.{◌≡◌, ◌+◌, ◌<◌, ◌≤◌, ◌⊎◌, ℕ, Some};
ghost use Rattle.v_frame.specs.Prelude.{KeepsBorder, pixel_at, table_of};

use v_frame::pixel::Pixel;
use v_frame::plane::{Plane, PlaneRef};
use v_frame_ops::{copy_region, fill};

/// Copies a picture into a plane at column `x` of row `y`, and sets all other visible pixels to `ground`.
pub fn place_on_ground<T: Pixel>(
    picture: &PlaneRef<'_, T>,
    plane: &mut Plane<T>,
    x: usize,
    y: usize,
    ground: T,
)
    requires wide { x + picture.now.geometry.width ≤ plane.old.geometry.width }
    requires high { y + picture.now.geometry.height ≤ plane.old.geometry.height }
    ensures picture { (i j : ℕ) → i < picture.now.geometry.width → j < picture.now.geometry.height
        → pixel_at (table_of plane.new) (x + i) (y + j) ≡ pixel_at (table_of picture.now) i j }
    ensures ground { (i j : ℕ) → i < plane.old.geometry.width → j < plane.old.geometry.height
        → ((i < x) ⊎ (x + picture.now.geometry.width ≤ i))
        ⊎ ((j < y) ⊎ (y + picture.now.geometry.height ≤ j))
        → pixel_at (table_of plane.new) i j ≡ Some ground }
    ensures border { KeepsBorder plane.old plane.new }
{
    fill(plane, ground);
    copy_region(picture, plane, x, y);
}

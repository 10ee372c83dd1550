//! A picture in the middle of a larger one, with bars of one value around it.
ghost use Rattle.std.specs.Prelude.{◌≡◌, ◌+◌, ◌<◌, ◌≤◌, ◌⊎◌, ℕ, Some};
ghost use Rattle.v_frame.specs.Prelude.{KeepsBorder, pixel_at, table_of};
ghost use Rattle.example_recipes.specs.Letterbox.{before};

use v_frame::pixel::Pixel;
use v_frame::plane::{Plane, PlaneRef};
use v_frame_ops::{copy_region, fill};

/// Copies `picture` into the middle of `plane`, and fills the bars above, below and on both sides with `bars`. In limited
/// range, black is 16 for luma and 128 for chroma.
pub fn letterbox<T: Pixel>(picture: &PlaneRef<'_, T>, plane: &mut Plane<T>, bars: T)
    requires wide { picture.now.geometry.width ≤ plane.old.geometry.width }
    requires high { picture.now.geometry.height ≤ plane.old.geometry.height }
    ensures picture { let x = before plane.old.geometry.width picture.now.geometry.width in
        let y = before plane.old.geometry.height picture.now.geometry.height in
        (i j : ℕ) → i < picture.now.geometry.width → j < picture.now.geometry.height
        → pixel_at (table_of plane.new) (x + i) (y + j) ≡ pixel_at (table_of picture.now) i j }
    ensures bars { let x = before plane.old.geometry.width picture.now.geometry.width in
        let y = before plane.old.geometry.height picture.now.geometry.height in
        (i j : ℕ) → i < plane.old.geometry.width → j < plane.old.geometry.height
        → ((i < x) ⊎ (x + picture.now.geometry.width ≤ i))
        ⊎ ((j < y) ⊎ (y + picture.now.geometry.height ≤ j))
        → pixel_at (table_of plane.new) i j ≡ Some bars }
    ensures border { KeepsBorder plane.old plane.new }
{
    let x = (plane.width() - picture.width()) / 2;
    let y = (plane.height() - picture.height()) / 2;
    fill(plane, bars);
    copy_region(picture, plane, x, y);
}

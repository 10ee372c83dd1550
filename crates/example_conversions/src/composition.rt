//! Pictures composed of several pictures.
ghost use Rattle.std.specs.Prelude.{◌≡◌, ◌+◌, ◌*◌, ◌<◌, ◌≤◌, ℕ, Some, min};
ghost use Rattle.std.specs.Int.{abs_diff};
ghost use Rattle.v_frame.specs.Prelude.{pixel_at, table_of, KeepsBorder};
ghost use Rattle.v_frame_ops.specs.Prelude.{combined, weighted_mean, LiesOn};

use v_frame::plane::{Plane, PlaneRef};
use v_frame_ops::{blend_region, blend_region_with_mask, copy_region_clipped, difference};

/// Blends a logo over an 8-bit picture, half transparent.
pub fn stamp(logo: &PlaneRef<'_, u8>, picture: &mut Plane<u8>, x: usize, y: usize)
    requires wide { x + logo.now.geometry.width ≤ picture.old.geometry.width }
    requires high { y + logo.now.geometry.height ≤ picture.old.geometry.height }
    ensures logo { (i j p q : ℕ) → pixel_at (table_of picture.old) (x + i) (y + j) ≡ Some p
        → pixel_at (table_of logo.now) i j ≡ Some q
        → pixel_at (table_of picture.new) (x + i) (y + j) ≡ Some (weighted_mean 256 128 p q) }
    ensures left { (i j : ℕ) → i < x
        → pixel_at (table_of picture.new) i j ≡ pixel_at (table_of picture.old) i j }
    ensures border { KeepsBorder picture.old picture.new }
{
    blend_region(logo, picture, x, y, 128);
}

/// Writes a subtitle over a 10-bit picture, in proportion to its mask. Where the mask is 0, the picture stays unchanged.
pub fn show_subtitle(
    text: &PlaneRef<'_, u16>,
    mask: &PlaneRef<'_, u8>,
    picture: &mut Plane<u16>,
    x: usize,
    y: usize,
)
    requires wide { x + text.now.geometry.width ≤ picture.old.geometry.width }
    requires high { y + text.now.geometry.height ≤ picture.old.geometry.height }
    requires mask_wide { mask.now.geometry.width ≡ text.now.geometry.width }
    requires mask_high { mask.now.geometry.height ≡ text.now.geometry.height }
    ensures text { (i j p q m : ℕ) → pixel_at (table_of picture.old) (x + i) (y + j) ≡ Some p
        → pixel_at (table_of text.now) i j ≡ Some q → pixel_at (table_of mask.now) i j ≡ Some m
        → pixel_at (table_of picture.new) (x + i) (y + j) ≡ Some (weighted_mean 255 m p q) }
    ensures border { KeepsBorder picture.old picture.new }
{
    blend_region_with_mask(text, mask, picture, x, y);
}

/// Copies a picture into `target`, moved by this number of columns and rows and clipped. The other pixels of `target` stay
/// unchanged.
pub fn shift_into(picture: &PlaneRef<'_, u8>, target: &mut Plane<u8>, right: isize, down: isize)
    ensures moved { (i j k l : ℕ) → i < picture.now.geometry.width → j < picture.now.geometry.height
        → k < target.old.geometry.width → l < target.old.geometry.height → LiesOn right down i j k l
        → pixel_at (table_of target.new) k l ≡ pixel_at (table_of picture.now) i j }
    ensures border { KeepsBorder target.old target.new }
{
    copy_region_clipped(picture, target, right, down);
}

/// Replaces an 8-bit picture by its difference from `other`, multiplied by eight.
pub fn show_difference(picture: &mut Plane<u8>, other: &PlaneRef<'_, u8>)
    requires wide { other.now.geometry.width ≡ picture.old.geometry.width }
    requires high { other.now.geometry.height ≡ picture.old.geometry.height }
    ensures table { table_of picture.new
        ≡ combined (combined (λ p q. min (abs_diff p q * 8) 255)) (table_of picture.old)
        (table_of other.now) }
    ensures border { KeepsBorder picture.old picture.new }
{
    difference(other, picture, 8, 8);
}

//! Resized pictures.
ghost use Rattle.std.specs.Prelude.{◌≡◌, ◌^◌, ◌<◌, ℕ, Some};
ghost use Rattle.std.specs.Bool.{OnFalse, OnTrue};
ghost use Rattle.v_frame.specs.Prelude.{pixel_at, table_of, KeepsBorder};
ghost use Rattle.v_frame_resize.specs.Prelude.{area_mean, nearest};

use v_frame::pixel::Pixel;
use v_frame::plane::{Plane, PlaneRef};
use v_frame_resize::rows::can_resize;
use v_frame_resize::{resize_area, resize_nearest};

/// Resizes a plane to a thumbnail. Returns false and writes nothing if the sizes are too large for [`resize_area`].
pub fn make_thumbnail<T: Pixel>(source: &PlaneRef<'_, T>, thumbnail: &mut Plane<T>) -> bool
    ensures pixels { OnTrue result ((x y : ℕ) → x < thumbnail.old.geometry.width
        → y < thumbnail.old.geometry.height → pixel_at (table_of thumbnail.new) x y
        ≡ Some (T.form.pixel_of (area_mean T.form (table_of source.now)
        thumbnail.old.geometry.width thumbnail.old.geometry.height x y))) }
    ensures border { KeepsBorder thumbnail.old thumbnail.new }
    ensures same { OnFalse result (thumbnail.new ≡ thumbnail.old) }
{
    let (width, height) = (thumbnail.width(), thumbnail.height());
    if !can_resize(source.width(), source.height(), width, height) {
        return false;
    }
    resize_area(source, thumbnail);
    true
}

/// Resizes a mask, whose values must not be mixed, to the size of another plane.
pub fn show_mask(mask: &PlaneRef<'_, u8>, target: &mut Plane<u8>)
    requires wide { target.old.geometry.width < 2 ^ 62 }
    requires high { target.old.geometry.height < 2 ^ 62 }
    requires mask_wide { mask.now.geometry.width < 2 ^ 62 }
    requires mask_high { mask.now.geometry.height < 2 ^ 62 }
    ensures pixels { (x y : ℕ) → x < target.old.geometry.width → y < target.old.geometry.height
        → pixel_at (table_of target.new) x y ≡ pixel_at (table_of mask.now)
        (nearest mask.now.geometry.width target.old.geometry.width x)
        (nearest mask.now.geometry.height target.old.geometry.height y) }
    ensures border { KeepsBorder target.old target.new }
{
    resize_nearest(mask, target);
}

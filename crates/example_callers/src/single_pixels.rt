//! Single pixels of a plane that are changed in place.
ghost use Rattle.std.specs.Prelude.{◌≡◌, ◌<◌, ◌≤◌, ◌⊎◌, Some};
ghost use Rattle.v_frame.specs.Prelude.{table_of, pixel_at, with_pixel, KeepsBorder};

use v_frame::pixel::Pixel;
use v_frame::plane::Plane;

/// Sets the pixel in column `x` of row `y`. If this position is not visible, nothing changes. The border never changes.
pub fn set_pixel<T: Copy>(plane: &mut Plane<T>, x: usize, y: usize, value: T)
    ensures border { KeepsBorder plane.old plane.new }
    ensures inside { x < plane.old.geometry.width → y < plane.old.geometry.height
        → table_of plane.new ≡ with_pixel (table_of plane.old) x y value }
    ensures outside { (plane.old.geometry.width ≤ x) ⊎ (plane.old.geometry.height ≤ y)
        → plane.new ≡ plane.old }
{
    if plane.width() <= x {
        return;
    }
    if plane.height() <= y {
        return;
    }
    *plane.visible_pixel_mut(x, y) = value;
}

/// Exchanges two visible pixels, each given by its column and its row.
pub fn exchange_pixels<T: Pixel>(
    plane: &mut Plane<T>,
    first: (usize, usize),
    second: (usize, usize),
)
    requires wide { (first.0 < plane.old.geometry.width) × (second.0 < plane.old.geometry.width) }
    requires high { (first.1 < plane.old.geometry.height) × (second.1 < plane.old.geometry.height) }
    ensures border { KeepsBorder plane.old plane.new }
    ensures table { (pixel other : T) → pixel_at (table_of plane.old) first.0 first.1 ≡ Some pixel
        → pixel_at (table_of plane.old) second.0 second.1 ≡ Some other
        → table_of plane.new ≡ with_pixel (with_pixel (table_of plane.old) first.0 first.1 other)
        second.0 second.1 pixel }
{
    let found = (
        plane.pixel(first.0, first.1),
        plane.pixel(second.0, second.1),
    );
    if let (Some(pixel), Some(other)) = found {
        set_pixel(plane, first.0, first.1, other);
        set_pixel(plane, second.0, second.1, pixel);
    }
}

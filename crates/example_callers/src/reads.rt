//! Reads of planes, and a call that fills a plane.
ghost use Rattle.std.specs.Prelude.{◌≡◌, ◌-◌, ◌*◌, ◌≤◌, ◌↔◌, IsTrue, Some, length, min, slice_get};
ghost use Rattle.std.specs.Bool.{OnTrue, OnFalse};
ghost use Rattle.v_frame.specs.Prelude.{alloc_size_of, isize_max, table_of, border_of, width_of, height_of, pixel_at, row_major};

use v_frame::laws::places_hold_pixels;
use v_frame::pixel::Pixel;
use v_frame::plane::Plane;

/// Returns the pixel (0, 0), read from the whole buffer.
pub fn first_pixel<T: Pixel>(plane: &Plane<T>) -> T
    ensures { pixel_at (table_of plane.now) 0 0 ≡ Some result }
{
    places_hold_pixels::<T>();
    plane.data()[plane.geometry().data_origin()]
}

/// Returns the size of the buffer of a plane in bytes, including the border.
pub fn buffer_bytes<T: Pixel>(plane: &Plane<T>) -> usize
    ensures value { result ≡ T.BYTES * alloc_size_of plane.now.geometry }
    ensures bound { result ≤ isize_max }
{
    T::BYTES * plane.geometry().alloc_size()
}

/// Returns row `y`, or the last row if `y` is larger. A filter reads this row at the lower edge.
pub fn nearest_row<T>(plane: &Plane<T>, y: usize) -> &[T]
    ensures { slice_get (table_of plane.now) (min y (plane.now.geometry.height - 1))
        ≡ Some result.now }
{
    plane.visible_row(y.min(plane.height() - 1))
}

/// Fills the visible rectangle from packed pixels. Returns `false` and changes nothing unless `source` has one pixel for each
/// visible pixel. After a success, the rows joined are these pixels.
pub fn is_filled_from<T: Pixel>(plane: &mut Plane<T>, source: &[T]) -> bool
    ensures accepted { IsTrue result
        ↔ (length source.now ≡ width_of (table_of plane.old) * height_of (table_of plane.old)) }
    ensures filled { OnTrue result (row_major (table_of plane.new) ≡ source.now) }
    ensures refused { OnFalse result (plane.new ≡ plane.old) }
    ensures border { border_of plane.new ≡ border_of plane.old }
    ensures geometry { plane.new.geometry ≡ plane.old.geometry }
{
    plane.copy_from_slice(source).is_ok()
}

//! Planes whose buffer is stored elsewhere, read and written without a copy.
ghost use Rattle.std.specs.Prelude.{ℕ, ◌≡◌, ◌≢◌, ◌<◌, Some, length, replicate, slice_get, slice_set};
ghost use Rattle.v_frame.specs.Prelude.{IsWhole, KeepsBorder, geometry_of, pixel_at, raster, row_major, table_of};

use v_frame::pixel::fill_row;
use v_frame::plane::{Plane, PlaneGeometry, PlaneRef, split_row_mut};

/// Returns the pixel in column 1 of row 1. The array holds 3 by 2 pixels in a border of one column to the left and one row
/// above.
pub fn pixel_of_an_array(entries: &[u16; 12]) -> Option<u16>
    ensures { let plane = raster (geometry_of 3 2 1 0 1 0 1 1) entries.now in
        result ≡ pixel_at (table_of plane) 1 1 }
{
    let geometry = PlaneGeometry::new(3, 2, 1, 0, 1, 0, 1, 1)?;
    PlaneRef::new(geometry, entries.as_slice())?.pixel(1, 1)
}

/// Returns the numbers of visible pixels of two planes: one that owns its buffer, and one whose buffer is stored elsewhere.
pub fn count_of_both<T: Copy>(plane: &Plane<T>, other: &PlaneRef<'_, T>) -> (usize, usize)
    ensures { result ≡ (
      length (row_major (table_of plane.now)),
      length (row_major (table_of other.now)),
    ) }
{
    (plane.as_plane_ref().pixels().len(), other.pixels().len())
}

/// Returns the first row of a plane, wherever its buffer is stored.
pub fn first_row<'a, T>(plane: &PlaneRef<'a, T>) -> &'a [T]
    ensures row { slice_get (table_of plane.now) 0 ≡ Some result.now }
    ensures wide { length result.now ≡ plane.now.geometry.width }
{
    prove!(plane.height() > 0);
    plane.visible_row(0)
}

/// Fills a row of a plane whose buffer is stored elsewhere. Everything else is unchanged, including the border.
pub fn fill_row_of_buffer<T: Copy>(buffer: &mut [T], geometry: PlaneGeometry, y: usize, pixel: T)
    requires whole { IsWhole geometry buffer.old }
    requires high { y < geometry.height }
    ensures table { table_of (raster geometry buffer.new) ≡ slice_set
        (table_of (raster geometry buffer.old)) y (replicate geometry.width pixel) }
    ensures border { KeepsBorder (raster geometry buffer.old) (raster geometry buffer.new) }
{
    let (row, _) = split_row_mut(buffer, geometry, y);
    fill_row(row, pixel);
}

//! Access to pixels by column and row at full speed, and a transformation through a list.
ghost use Rattle.std.specs.Prelude.{◌≡◌, ◌+◌, ◌-◌, ◌/◌, ◌<◌, ◌≤◌, Some, map, OnOk};
ghost use Rattle.v_frame.specs.Prelude.{alloc_size_of, pixel_at, place_of, row_major, table_of, Fits, KeepsBorder};

use std::alloc::{AllocError, Global};
use v_frame::laws::places_hold_pixels;
use v_frame::pixel::Pixel;
use v_frame::plane::{Plane, PlaneGeometry};

/// Returns the pixel in the middle of a plane, read by its index. The geometry and the buffer are fetched once, and each
/// further pixel costs one index.
pub fn middle_pixel<T: Pixel>(plane: &Plane<T>) -> T
    ensures { pixel_at (table_of plane.now) (plane.now.geometry.width / 2)
        (plane.now.geometry.height / 2) ≡ Some result }
{
    places_hold_pixels::<T>();
    let (geometry, data) = (plane.geometry(), plane.data());
    data[row_start(geometry, plane.height() / 2) + plane.width() / 2]
}

/// Returns the index of the first pixel of row `y`. The index of the pixel in column `x` is larger by `x`.
#[tactic(auto, using(v_frame_raster::proofs::Plans::row_start_within))]
fn row_start(geometry: PlaneGeometry, y: usize) -> usize
    requires fits { Fits geometry }
    requires inside { y < geometry.height }
    ensures place { result ≡ place_of geometry 0 y }
    ensures within { result + geometry.width ≤ alloc_size_of geometry }
{
    geometry.data_origin() + geometry.stride() * y
}

/// Inverts a plane through a list of its pixels. This is the transformation with the shortest proof, and not the fastest one.
pub fn invert_by_list(alloc: Global, plane: &mut Plane<u8>) -> Result<(), AllocError>
    ensures inverted { OnOk result (row_major (table_of plane.new)
        ≡ map (λ pixel. 255 - pixel) (row_major (table_of plane.old))) }
    ensures border { KeepsBorder plane.old plane.new }
{
    let inverted: Vec<u8> = plane.pixels().map(|pixel| 255 - pixel).collect(alloc)?;
    match plane.copy_from_slice(inverted.as_slice()) {
        Ok(()) => Ok(()),
        // This cannot happen, because the list has one pixel for each visible pixel.
        Err(_) => Err(AllocError),
    }
}

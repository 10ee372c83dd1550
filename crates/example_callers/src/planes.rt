//! Whole planes and frames: filled one entry at a time, copied and compared.
ghost use Rattle.std.specs.Prelude.{◌≡◌, ◌≢◌, ◌%◌, ◌<◌, ◌↔◌, ℕ, All, None, Some, IfOk, IsSome, IsTrue, length, option_map, slice_index_or};
ghost use Rattle.v_frame.specs.Prelude.{alloc_size_of, Fits, table_of, packed_copy, plane_at, KeepsBorders};

use crate::frames::copy_into_plane;
use std::alloc::{AllocError, Global};
use v_frame::frame::Frame;
use v_frame::laws::frames_are_equal;
use v_frame::pixel::Pixel;
use v_frame::plane::{Plane, PlaneGeometry};

/// Returns a plane in which each entry is its index in the buffer, modulo 2^16.
pub fn plane_of_places(alloc: Global, geometry: PlaneGeometry) -> Result<Plane<u16>, AllocError>
    requires { Fits geometry }
    ensures geometry { IfOk result (λ plane. plane.geometry ≡ geometry) }
    ensures entries { IfOk result (λ plane. (place : ℕ) → place < alloc_size_of geometry
        → slice_index_or plane.buffer place 0 ≡ place % 65536) }
{
    let mut plane = Plane::<u16>::new_uninit(alloc, geometry)?;
    fill_with_places(plane.data_mut());
    match plane.assume_init(alloc) {
        Ok(plane) => Ok(plane),
        Err(_) => Err(AllocError),
    }
}

/// Sets each entry to its index, modulo 2^16.
fn fill_with_places(entries: &mut [Option<u16>])
    ensures full { All IsSome entries.new }
    ensures entries { (place : ℕ) → place < length entries.old
        → slice_index_or entries.new place None ≡ Some (place % 65536) }
{
    for place in 0..entries.len() {
        entries[place] = Some((place % 65536) as u16);
    }
}

/// Returns a copy of a frame in which the plane with an index is filled from `source`, and whether the copy still equals the
/// frame.
///
/// If the frame has no such plane, or if the plane has another number of pixels, the copy equals the frame.
pub fn copy_with_plane<T: Pixel>(
    alloc: Global,
    frame: &Frame<T>,
    index: usize,
    source: &[T],
) -> Result<(Frame<T>, bool), AllocError>
    ensures table { IfOk result (λ copy. option_map table_of (plane_at copy.0 index) ≡ option_map
        (λ plane. (packed_copy (table_of plane) source.now).table) (plane_at frame.now index)) }
    ensures border { IfOk result (λ copy. KeepsBorders frame.now copy.0) }
    ensures others { IfOk result (λ copy. (other : ℕ) → other ≢ index
        → plane_at copy.0 other ≡ plane_at frame.now other) }
    ensures same { IfOk result (λ copy. IsTrue copy.1 ↔ (copy.0 ≡ frame.now)) }
{
    let mut copy = frame.clone(alloc)?;
    let _answer = copy_into_plane(&mut copy, index, source);
    let same = frames_are_equal(&copy, frame);
    Ok((copy, same))
}

//! A picture in a decoder's buffer, used as a plane and compared without a copy.
ghost use Rattle.std.specs.Prelude.{◌≡◌, ◌-◌, ◌≤◌, ◌↔◌, IfSome, IsSome, SomeIff};
ghost use Rattle.v_frame.specs.Prelude.{IsGeometry, IsWhole, geometry_of, raster, row_major, squared_errors, table_of};

use v_frame::plane::{Plane, PlaneGeometry, PlaneRef};
use v_frame_ops::sum_of_squared_errors;

/// Returns a plane over a buffer whose rows are `stride` bytes apart. Each row has `width` visible pixels, followed by bytes
/// that the decoder left there.
///
/// Returns `None` if the size is zero, if the stride is less than the width, or if the length of the buffer is not `stride *
/// height` bytes.
pub fn plane_of_buffer(
    buffer: &[u8],
    width: usize,
    height: usize,
    stride: usize,
) -> Option<PlaneRef<'_, u8>>
    ensures { let geometry = geometry_of width height 0 (stride - width) 0 0 1 1 in
        SomeIff result ((width ≤ stride) × IsGeometry geometry × IsWhole geometry buffer.now)
        (raster geometry buffer.now) }
{
    let tail = stride.checked_sub(width)?;
    let geometry = PlaneGeometry::new(width, height, 0, tail, 0, 0, 1, 1)?;
    PlaneRef::new(geometry, buffer)
}

/// Returns the sum of the squared errors of a plane against a decoded plane, or `None` if their sizes differ.
pub fn error_against(plane: &Plane<u8>, decoded: &PlaneRef<'_, u8>) -> Option<u128>
    ensures there { IsSome result ↔ (plane.now.geometry.width ≡ decoded.now.geometry.width)
        × (plane.now.geometry.height ≡ decoded.now.geometry.height) }
    ensures sum { IfSome result (λ sum. sum ≡ squared_errors (λ pixel. pixel)
        (row_major (table_of plane.now)) (row_major (table_of decoded.now))) }
{
    if plane.width() != decoded.width() || plane.height() != decoded.height() {
        return None;
    }
    Some(sum_of_squared_errors(&plane.as_plane_ref(), decoded))
}

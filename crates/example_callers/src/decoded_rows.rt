//! A picture in a decoder's buffer whose last row may end at its width, compared without a copy.
ghost use Rattle.std.specs.Prelude.{◌≡◌, SomeIff, length};
ghost use Rattle.v_frame.specs.Prelude.{RowsFit, row_major, squared_errors, strided_rows, table_of};

use v_frame::plane::{Plane, RowsRef};
use v_frame_ops::rows::sum_of_squared_errors;

/// Returns the sum of the squared errors of a plane against a decoded picture of the same size, whose rows begin `stride` bytes
/// apart. Returns `None` if the last row would end past the end of `decoded`, or if rows would overlap.
pub fn error_against_rows(plane: &Plane<u8>, decoded: &[u8], stride: usize) -> Option<u128>
    ensures { let size = plane.now.geometry in
        SomeIff result (RowsFit size.width size.height stride (length decoded.now))
        (squared_errors (λ pixel. pixel) (row_major (table_of plane.now))
        (row_major (strided_rows size.width size.height stride decoded.now))) }
{
    let decoded = RowsRef::new(decoded, plane.width(), plane.height(), stride)?;
    let shown = plane.as_plane_ref().as_rows_ref();
    Some(sum_of_squared_errors(&shown, &decoded))
}

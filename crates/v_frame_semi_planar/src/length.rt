//! The number of bytes of a frame in a semi-planar layout.
ghost use Rattle.std.specs.Prelude.{◌≡◌, ◌*◌, length, min, IfErr, IfOk, OnOk};
ghost use Rattle.v_frame.specs.Prelude.{row_major, table_of, tables_of, usize_max};
ghost use Rattle.v_frame_ops.specs.Change.{combined};
ghost use Rattle.v_frame_planar.specs.Planar.{size_of};
ghost use Rattle.v_frame_semi_planar.specs.Interleaved.{interleaved};
ghost use Rattle.v_frame_semi_planar.specs.Format.{HasLayout, RefusedFor};
ghost use Rattle.v_frame_semi_planar.specs.SemiPlanar.{chroma_pixels, semi_planar_bytes};

use crate::error::SemiPlanarError;
use crate::format::{SemiPlanarFormat, check_layout};
use v_frame::frame::Frame;
use v_frame::pixel::Pixel;
use v_frame::plane::Plane;

/// Returns the number of bytes of `frame` in the layout `format`. [`read_frame`](crate::read_frame) reads and
/// [`write_frame`](crate::write_frame) writes this number of bytes. It saturates at `usize::MAX`.
///
/// # Errors
///
/// The errors of [`check_layout`](crate::check_layout).
pub fn semi_planar_len<T: Pixel>(
    frame: &Frame<T>,
    format: SemiPlanarFormat,
) -> Result<usize, SemiPlanarError>
    ensures value { IfOk result (λ count. count
        ≡ min (length (semi_planar_bytes T.form format (tables_of frame.now))) usize_max) }
    ensures layout { OnOk result (HasLayout T.form.size format frame.now) }
    ensures error { IfErr result (RefusedFor T.form.size format frame.now) }
{
    let (first, second) = chroma_planes(frame, format)?;
    let chroma = pair_len(first, second);
    Ok(frame.y_plane.byte_len().saturating_add(chroma))
}

/// Returns the number of bytes of two planes of the same size, interleaved.
fn pair_len<T: Pixel>(first: &Plane<T>, second: &Plane<T>) -> usize
    requires { size_of (table_of first.now) ≡ size_of (table_of second.now) }
    ensures { result ≡ T.form.size
        * length (row_major (combined interleaved (table_of first.now) (table_of second.now))) }
{
    // Reading the widths states that all rows of each plane have that length.
    let _widths = (first.width(), second.width());
    first.byte_len() + second.byte_len()
}

/// Returns the two chroma planes of a frame, in the order of the layout. Fails if the frame does not fit the layout.
pub(crate) fn chroma_planes<T: Pixel>(
    frame: &Frame<T>,
    format: SemiPlanarFormat,
) -> Result<(&Plane<T>, &Plane<T>), SemiPlanarError>
    ensures layout { OnOk result (HasLayout T.form.size format frame.now) }
    ensures planes { IfOk result (λ planes. chroma_pixels format (tables_of frame.now).u
        (tables_of frame.now).v
        ≡ row_major (combined interleaved (table_of planes.0.now) (table_of planes.1.now))) }
    ensures sizes { IfOk result (λ planes. size_of (table_of planes.0.now)
        ≡ size_of (table_of planes.1.now)) }
    ensures error { IfErr result (RefusedFor T.form.size format frame.now) }
{
    check_layout(frame, format)?;
    let (Some(u), Some(v)) = (&frame.u_plane, &frame.v_plane) else {
        unreachable!()
    };
    if format.begins_with_v() {
        return Ok((v, u));
    }
    Ok((u, v))
}

//! The rotations, flips and transpositions as values.
ghost use Rattle.std.specs.Prelude.{◌≡◌};
ghost use Rattle.v_frame.specs.Prelude.{table_of, KeepsBorder};
ghost use Rattle.v_frame_turn.specs.Frames.{exchanges, turned, PlaneFits};

use crate::rows;
use v_frame::pixel::Pixel;
use v_frame::plane::{Plane, PlaneRef, VisibleMut};

/// A rotation, a flip or a transposition. With the identity, and with a transposition that follows a rotation by 180 degrees,
/// these are the eight orientations of Exif.
#[derive(Debug, Clone, Copy, PartialEq, Eq)]
pub enum Turn {
    /// Flips upside down, as [`flip_vertical`](crate::flip_vertical) does.
    FlipVertical,
    /// Mirrors left to right, as [`flip_horizontal`](crate::flip_horizontal) does.
    FlipHorizontal,
    /// Rotates by 180 degrees, as [`rotate_180`](crate::rotate_180) does.
    Rotate180,
    /// Exchanges rows and columns, as [`transpose`](crate::transpose) does.
    Transpose,
    /// Rotates by 90 degrees clockwise, as [`rotate_90`](crate::rotate_90) does.
    Rotate90,
    /// Rotates by 270 degrees clockwise, as [`rotate_270`](crate::rotate_270) does.
    Rotate270,
}

impl Turn {
    /// Returns whether rows become columns, so that the width and the height are exchanged. This is true for `Transpose`,
    /// `Rotate90` and `Rotate270`.
    pub fn exchanges_sizes(self) -> bool
        ensures { result ≡ exchanges self }
    {
        match self {
            Turn::FlipVertical | Turn::FlipHorizontal | Turn::Rotate180 => false,
            Turn::Transpose | Turn::Rotate90 | Turn::Rotate270 => true,
        }
    }
}

/// Writes `source`, transformed by `turn`, into `target`. `target` has the size of `source`, with width and height exchanged if
/// [`exchanges_sizes`](Turn::exchanges_sizes) returns true. The padding of `target` stays unchanged.
pub fn turn_plane<T: Pixel>(source: &PlaneRef<'_, T>, target: &mut Plane<T>, turn: Turn)
    requires { PlaneFits (exchanges turn) source.now target.old }
    ensures table { table_of target.new ≡ turned turn (table_of source.now) }
    ensures border { KeepsBorder target.old target.new }
{
    let source = source.as_rows_ref();
    let VisibleMut {
        entries,
        width,
        height,
        stride,
    } = target.visible_mut();
    rows::turn(&source, entries, width, height, stride, turn);
}

//! Planes in half their size.
ghost use Rattle.std.specs.Prelude.{◌≡◌, ◌+◌, ◌*◌, ℕ, List, slice_get, Some};
ghost use Rattle.v_frame.specs.Prelude.{halved, KeepsBorder, table_of};

use crate::rows;
use v_frame::pixel::Pixel;
use v_frame::plane::{Plane, PlaneRef, VisibleMut};

/// Writes `source` in half its width and half its height into `target`. Each pixel is the mean of a block of 2 by 2 source
/// pixels, rounded to the nearest integer, halves up.
///
/// The width and the height of `source` are exactly twice those of `target`. The padding of `target` stays unchanged.
pub fn downscale<T: Pixel>(source: &PlaneRef<'_, T>, target: &mut Plane<T>)
    requires wide { source.now.geometry.width ≡ 2 * target.old.geometry.width }
    requires high { source.now.geometry.height ≡ 2 * target.old.geometry.height }
    ensures rows { (y : ℕ) (top bottom : List T) → slice_get (table_of source.now) (2 * y) ≡ Some top
        → slice_get (table_of source.now) (2 * y + 1) ≡ Some bottom
        → slice_get (table_of target.new) y ≡ Some (halved T.form top bottom) }
    ensures border { KeepsBorder target.old target.new }
{
    let source = source.as_rows_ref();
    let VisibleMut {
        entries,
        width,
        height,
        stride,
    } = target.visible_mut();
    rows::downscale(&source, entries, width, height, stride);
}

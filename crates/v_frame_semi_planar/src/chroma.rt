//! Interleaves two chroma planes, and splits an interleaved plane. Padding is unchanged.
ghost use Rattle.std.specs.Prelude.{◌≡◌, ◌*◌};
ghost use Rattle.v_frame.specs.Prelude.{KeepsBorder, table_of};
ghost use Rattle.v_frame_ops.specs.Change.{combined};
ghost use Rattle.v_frame_semi_planar.specs.Interleaved.{interleaved};

use crate::rows;
use v_frame::pixel::Pixel;
use v_frame::plane::{Plane, PlaneRef, VisibleMut};

/// Interleaves the pixels of two planes: in each row of `target`, even columns get the pixels of `first` and odd columns those
/// of `second`. The padding of `target` is unchanged.
///
/// `first` and `second` have the same size. `target` is twice as wide and equally high.
pub fn interleave<T: Copy>(first: &PlaneRef<'_, T>, second: &PlaneRef<'_, T>, target: &mut Plane<T>)
    requires wide { target.old.geometry.width ≡ 2 * first.now.geometry.width }
    requires high { target.old.geometry.height ≡ first.now.geometry.height }
    requires second_wide { second.now.geometry.width ≡ first.now.geometry.width }
    requires second_high { second.now.geometry.height ≡ first.now.geometry.height }
    ensures table { table_of target.new
        ≡ combined interleaved (table_of first.now) (table_of second.now) }
    ensures border { KeepsBorder target.old target.new }
{
    let (first, second) = (first.as_rows_ref(), second.as_rows_ref());
    let VisibleMut {
        entries,
        width,
        height,
        stride,
    } = target.visible_mut();
    rows::interleave(&first, &second, entries, width, height, stride);
}

/// Splits a plane of interleaved pixels: `first` gets the pixels in even columns of `source`, and `second` those in odd
/// columns. The padding of both is unchanged.
///
/// `first` and `second` have the same size. `source` is twice as wide and equally high.
pub fn deinterleave<T: Pixel>(source: &PlaneRef<'_, T>, first: &mut Plane<T>, second: &mut Plane<T>)
    requires wide { source.now.geometry.width ≡ 2 * first.old.geometry.width }
    requires high { source.now.geometry.height ≡ first.old.geometry.height }
    requires second_wide { second.old.geometry.width ≡ first.old.geometry.width }
    requires second_high { second.old.geometry.height ≡ first.old.geometry.height }
    ensures table { table_of source.now
        ≡ combined interleaved (table_of first.new) (table_of second.new) }
    ensures first_border { KeepsBorder first.old first.new }
    ensures second_border { KeepsBorder second.old second.new }
{
    let source = source.as_rows_ref();
    let VisibleMut {
        entries,
        width,
        height,
        stride,
    } = first.visible_mut();
    let VisibleMut {
        entries: others,
        width: _,
        height: _,
        stride: other_stride,
    } = second.visible_mut();
    rows::deinterleave(
        &source,
        width,
        height,
        entries,
        stride,
        others,
        other_stride,
    );
}

//! Planes resized. The padding stays unchanged.
ghost use Rattle.std.specs.Prelude.{◌≡◌, ◌^◌, ◌<◌, ℕ, Some};
ghost use Rattle.v_frame.specs.Prelude.{pixel_at, table_of, KeepsBorder};
ghost use Rattle.v_frame_resize.specs.Resize.{area_mean, nearest, CanResize};

use crate::rows;
use v_frame::pixel::Pixel;
use v_frame::plane::{Plane, PlaneRef, VisibleMut};

/// Resizes `source` to the size of `target` with a box filter: each target pixel is the mean of the area of `source` that it
/// covers. Source pixels that are covered only in part are weighted by the covered area. The padding of `target` stays
/// unchanged.
///
/// The mean is computed exactly, then rounded once to the nearest integer, halves up. The sizes must pass the test of
/// [`can_resize`](crate::rows::can_resize).
pub fn resize_area<T: Pixel>(source: &PlaneRef<'_, T>, target: &mut Plane<T>)
    requires { CanResize source.now.geometry.width source.now.geometry.height
        target.old.geometry.width target.old.geometry.height }
    ensures pixels { (x y : ℕ) → x < target.old.geometry.width → y < target.old.geometry.height
        → pixel_at (table_of target.new) x y ≡ Some (T.form.pixel_of
        (area_mean T.form (table_of source.now) target.old.geometry.width target.old.geometry.height x y)) }
    ensures border { KeepsBorder target.old target.new }
{
    let source = source.as_rows_ref();
    let VisibleMut {
        entries,
        width,
        height,
        stride,
    } = target.visible_mut();
    rows::resize_area(&source, entries, width, height, stride);
}

/// Resizes `source` to the size of `target` by the nearest neighbor: each target pixel is the source pixel that contains its
/// center. If the center lies between two source pixels, the right one or the lower one is used. The padding of `target` stays
/// unchanged.
///
/// The target pixel at column `x` is the source pixel at column `(2 * x + 1) * source_width / (2 * target_width)`, rounded
/// down, and rows are chosen in the same way. All widths and heights are below 2^62.
pub fn resize_nearest<T: Copy>(source: &PlaneRef<'_, T>, target: &mut Plane<T>)
    requires wide { target.old.geometry.width < 2 ^ 62 }
    requires high { target.old.geometry.height < 2 ^ 62 }
    requires source_wide { source.now.geometry.width < 2 ^ 62 }
    requires source_high { source.now.geometry.height < 2 ^ 62 }
    ensures pixels { (x y : ℕ) → x < target.old.geometry.width → y < target.old.geometry.height
        → pixel_at (table_of target.new) x y ≡ pixel_at (table_of source.now)
        (nearest source.now.geometry.width target.old.geometry.width x)
        (nearest source.now.geometry.height target.old.geometry.height y) }
    ensures border { KeepsBorder target.old target.new }
{
    let source = source.as_rows_ref();
    let VisibleMut {
        entries,
        width,
        height,
        stride,
    } = target.visible_mut();
    rows::resize_nearest(&source, entries, width, height, stride);
}

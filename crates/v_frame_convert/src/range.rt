//! Planes converted between the limited range and the full range.
ghost use Rattle.std.specs.Prelude.{◌≡◌};
ghost use Rattle.v_frame.specs.Prelude.{KeepsBorder, table_of};
ghost use Rattle.v_frame_convert.specs.Convert.{converted};
ghost use Rattle.v_frame_convert.specs.Depth.{DepthFits};
ghost use Rattle.v_frame_convert.specs.Range.{pixel_by, in_full_range, in_limited_range};

use crate::rows;
use v_frame::pixel::Pixel;
use v_frame::plane::{Plane, PlaneRef, VisibleMut};

/// The component of a picture that a plane holds. It decides which values are in the limited range.
#[derive(Debug, Clone, Copy, PartialEq, Eq)]
pub enum Component {
    /// Luma. Its limited range at 8 bits is from 16 (black) to 235 (white).
    Luma,
    /// One of the two chroma components. Its limited range at 8 bits is from 16 to 240, and 128 is neutral.
    Chroma,
}

/// Converts `source` from the limited range to the full range of bit depth `depth` and writes it into `target`, which has the
/// same size. The padding of `target` stays unchanged.
///
/// Let `k` be `2^(depth - 8)` and `peak` be `2^depth - 1`. A luma value `v` becomes `(v - 16 * k) * peak / (219 * k)`, and a
/// chroma value `v` becomes `(v - 128 * k) * peak / (224 * k) + 128 * k`. The result is rounded to the nearest integer, halves
/// up, and clipped to `0..=peak`. At 8 bits, luma 16 becomes 0 and 235 becomes 255; chroma 16 becomes 1, 128 stays 128, and 240
/// becomes 255. These are the ranges of ITU-R BT.601, BT.709 and BT.2100.
///
/// The depth must fit the type of the pixels, as [`depth_fits`](crate::depth_fits) tests.
pub fn to_full_range<T: Pixel>(
    source: &PlaneRef<'_, T>,
    target: &mut Plane<T>,
    component: Component,
    depth: u8,
)
    requires wide { source.now.geometry.width ≡ target.old.geometry.width }
    requires high { source.now.geometry.height ≡ target.old.geometry.height }
    requires depth { DepthFits T.BYTES depth }
    ensures table { table_of target.new
        ≡ converted (converted (pixel_by T.form (in_full_range component depth))) (table_of source.now) }
    ensures border { KeepsBorder target.old target.new }
{
    let source = source.as_rows_ref();
    let VisibleMut {
        entries,
        width,
        height,
        stride,
    } = target.visible_mut();
    rows::to_full_range(&source, entries, width, height, stride, component, depth);
}

/// Converts `source` from the full range to the limited range of bit depth `depth` and writes it into `target`, which has the
/// same size. The padding of `target` stays unchanged.
///
/// This is the inverse of [`to_full_range`] up to rounding. Let `k` be `2^(depth - 8)` and `peak` be `2^depth - 1`. A luma
/// value `v` becomes `16 * k + v * 219 * k / peak`, and a chroma value `v` becomes `128 * k + (v - 128 * k) * 224 * k / peak`.
/// The result is rounded to the nearest integer, halves up. At 8 bits, luma 0 becomes 16 and 255 becomes 235. A value above
/// `peak` is first replaced by `peak`.
///
/// The depth must fit the type of the pixels, as [`depth_fits`](crate::depth_fits) tests.
pub fn to_limited_range<T: Pixel>(
    source: &PlaneRef<'_, T>,
    target: &mut Plane<T>,
    component: Component,
    depth: u8,
)
    requires wide { source.now.geometry.width ≡ target.old.geometry.width }
    requires high { source.now.geometry.height ≡ target.old.geometry.height }
    requires depth { DepthFits T.BYTES depth }
    ensures table { table_of target.new
        ≡ converted (converted (pixel_by T.form (in_limited_range component depth))) (table_of source.now) }
    ensures border { KeepsBorder target.old target.new }
{
    let source = source.as_rows_ref();
    let VisibleMut {
        entries,
        width,
        height,
        stride,
    } = target.visible_mut();
    rows::to_limited_range(&source, entries, width, height, stride, component, depth);
}

//! Planes converted to another bit depth.
ghost use Rattle.std.specs.Prelude.{◌≡◌};
ghost use Rattle.v_frame.specs.Prelude.{KeepsBorder, table_of};
ghost use Rattle.v_frame_convert.specs.Convert.{converted};
ghost use Rattle.v_frame_convert.specs.Depth.{pixel_at_depth, DepthFits};

use crate::rows;
use v_frame::pixel::Pixel;
use v_frame::plane::{Plane, PlaneRef, VisibleMut};

/// Converts the values of `source` from bit depth `from` to bit depth `to` and writes them into `target`, which has the same
/// size. The padding of `target` stays unchanged.
///
/// To a greater depth a value is shifted left, `value << (to - from)`, as the limited range requires: for example, 235 of 8
/// bits becomes 940 of 10 bits, and 255 becomes 1020. To a smaller depth it is rounded to the nearest integer, halves up, and
/// clipped to `2^to - 1`. A value above `2^from - 1` is first replaced by `2^from - 1`.
///
/// Each depth must fit its type of pixels, as [`depth_fits`](crate::depth_fits) tests.
pub fn convert_depth<S: Pixel, T: Pixel>(
    source: &PlaneRef<'_, S>,
    target: &mut Plane<T>,
    from: u8,
    to: u8,
)
    requires wide { source.now.geometry.width ≡ target.old.geometry.width }
    requires high { source.now.geometry.height ≡ target.old.geometry.height }
    requires from { DepthFits S.BYTES from }
    requires to { DepthFits T.BYTES to }
    ensures table { table_of target.new
        ≡ converted (converted (pixel_at_depth S.form T.form from to)) (table_of source.now) }
    ensures border { KeepsBorder target.old target.new }
{
    let source = source.as_rows_ref();
    let VisibleMut {
        entries,
        width,
        height,
        stride,
    } = target.visible_mut();
    rows::convert_depth(&source, entries, width, height, stride, from, to);
}

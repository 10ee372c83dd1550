//! Planes computed pixel by pixel from another plane, which may have another type of pixels.
ghost use Rattle.std.specs.Prelude.{◌≡◌, ℕ, List};
ghost use Rattle.v_frame.specs.Prelude.{KeepsBorder, table_of};
ghost use Rattle.v_frame_convert.specs.Convert.{converted, GivesPixels};

use crate::rows;
use v_frame::pixel::Pixel;
use v_frame::plane::{Plane, PlaneRef, VisibleMut};

/// Sets each visible pixel of `target` to the result of `change` for the pixel of `source` in the same column and row. Both
/// planes have the same size, and their types of pixels may differ. The padding of `target` stays unchanged.
///
/// `change` must accept every pixel of its type. The compiler vectorizes a simple `change`, for example a shift or a
/// comparison.
pub fn map_into<S: Pixel, T: Pixel, F: Fn(S) -> T>(
    source: &PlaneRef<'_, S>,
    target: &mut Plane<T>,
    change: F,
)
    requires callable { F.IsAlwaysCallable change }
    requires wide { source.now.geometry.width ≡ target.old.geometry.width }
    requires high { source.now.geometry.height ≡ target.old.geometry.height }
    ensures pixels { GivesPixels (F.post change) (table_of source.now) (table_of target.new) }
    ensures converted { (g : S → T) → ((p : S) (q : T) → F.post change p q → q ≡ g p)
        → table_of target.new ≡ converted (converted g) (table_of source.now) }
    ensures border { KeepsBorder target.old target.new }
{
    let source = source.as_rows_ref();
    let VisibleMut {
        entries,
        width,
        height,
        stride,
    } = target.visible_mut();
    rows::map_into(&source, entries, width, height, stride, change);
}

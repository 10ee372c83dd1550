//! Planes transposed, or rotated by 90 or 270 degrees. The padding stays unchanged.
ghost use Rattle.std.specs.Prelude.{◌≡◌};
ghost use Rattle.v_frame.specs.Prelude.{table_of, KeepsBorder};
ghost use Rattle.v_frame_turn.specs.Turn.{rotated_270, rotated_90, transposed};

use crate::turns::{Turn, turn_plane};
use v_frame::pixel::Pixel;
use v_frame::plane::{Plane, PlaneRef};

/// Writes `source` transposed into `target`: the pixel at column `x` of row `y` moves to column `y` of row `x`, as with NumPy's
/// `.T`. The padding of `target` stays unchanged.
///
/// The width of `target` equals the height of `source`, and its height equals the width of `source`.
pub fn transpose<T: Pixel>(source: &PlaneRef<'_, T>, target: &mut Plane<T>)
    requires wide { source.now.geometry.height ≡ target.old.geometry.width }
    requires high { source.now.geometry.width ≡ target.old.geometry.height }
    ensures table { table_of target.new ≡ transposed (table_of source.now) }
    ensures border { KeepsBorder target.old target.new }
{
    turn_plane(source, target, Turn::Transpose);
}

/// Writes `source` rotated by 90 degrees clockwise into `target`, as with `np.rot90(_, -1)`. The padding of `target` stays
/// unchanged.
///
/// The width of `target` equals the height of `source`, and its height equals the width of `source`.
pub fn rotate_90<T: Pixel>(source: &PlaneRef<'_, T>, target: &mut Plane<T>)
    requires wide { source.now.geometry.height ≡ target.old.geometry.width }
    requires high { source.now.geometry.width ≡ target.old.geometry.height }
    ensures table { table_of target.new ≡ rotated_90 (table_of source.now) }
    ensures border { KeepsBorder target.old target.new }
{
    turn_plane(source, target, Turn::Rotate90);
}

/// Writes `source` rotated by 270 degrees clockwise, that is 90 degrees counterclockwise, into `target`, as with `np.rot90`.
/// The padding of `target` stays unchanged.
///
/// The width of `target` equals the height of `source`, and its height equals the width of `source`.
pub fn rotate_270<T: Pixel>(source: &PlaneRef<'_, T>, target: &mut Plane<T>)
    requires wide { source.now.geometry.height ≡ target.old.geometry.width }
    requires high { source.now.geometry.width ≡ target.old.geometry.height }
    ensures table { table_of target.new ≡ rotated_270 (table_of source.now) }
    ensures border { KeepsBorder target.old target.new }
{
    turn_plane(source, target, Turn::Rotate270);
}

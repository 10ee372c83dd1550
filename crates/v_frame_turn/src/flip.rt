//! Planes flipped upside down, mirrored, or rotated by 180 degrees. The padding stays unchanged.
ghost use Rattle.std.specs.Prelude.{◌≡◌, map, reverse};
ghost use Rattle.v_frame.specs.Prelude.{table_of, KeepsBorder};
ghost use Rattle.v_frame_turn.specs.Turn.{rotated_180};

use crate::rows;
use crate::turns::{Turn, turn_plane};
use v_frame::pixel::Pixel;
use v_frame::plane::{Plane, PlaneRef, VisibleMut};

/// Writes `source` upside down into `target`: the last row becomes the first, as with `np.flipud`. Both planes have the same
/// size. The padding of `target` stays unchanged.
pub fn flip_vertical<T: Pixel>(source: &PlaneRef<'_, T>, target: &mut Plane<T>)
    requires wide { source.now.geometry.width ≡ target.old.geometry.width }
    requires high { source.now.geometry.height ≡ target.old.geometry.height }
    ensures table { table_of target.new ≡ reverse (table_of source.now) }
    ensures border { KeepsBorder target.old target.new }
{
    turn_plane(source, target, Turn::FlipVertical);
}

/// Writes `source` mirrored left to right into `target`: the last pixel of each row becomes the first, as with `np.fliplr`.
/// Both planes have the same size. The padding of `target` stays unchanged.
pub fn flip_horizontal<T: Pixel>(source: &PlaneRef<'_, T>, target: &mut Plane<T>)
    requires wide { source.now.geometry.width ≡ target.old.geometry.width }
    requires high { source.now.geometry.height ≡ target.old.geometry.height }
    ensures table { table_of target.new ≡ map reverse (table_of source.now) }
    ensures border { KeepsBorder target.old target.new }
{
    turn_plane(source, target, Turn::FlipHorizontal);
}

/// Writes `source` rotated by 180 degrees into `target`. Both planes have the same size. The padding of `target` stays
/// unchanged.
pub fn rotate_180<T: Pixel>(source: &PlaneRef<'_, T>, target: &mut Plane<T>)
    requires wide { source.now.geometry.width ≡ target.old.geometry.width }
    requires high { source.now.geometry.height ≡ target.old.geometry.height }
    ensures table { table_of target.new ≡ rotated_180 (table_of source.now) }
    ensures border { KeepsBorder target.old target.new }
{
    turn_plane(source, target, Turn::Rotate180);
}

/// Flips the visible pixels of `plane` upside down in place: the last row becomes the first, as with `np.flipud`. The padding
/// stays unchanged.
pub fn flip_vertical_in_place<T: Pixel>(plane: &mut Plane<T>)
    ensures table { table_of plane.new ≡ reverse (table_of plane.old) }
    ensures border { KeepsBorder plane.old plane.new }
{
    let VisibleMut {
        entries,
        width,
        height,
        stride,
    } = plane.visible_mut();
    rows::flip_vertical_in_place(entries, width, height, stride);
}

/// Mirrors the visible pixels of `plane` left to right in place: the last pixel of each row becomes the first, as with
/// `np.fliplr`. The padding stays unchanged.
pub fn flip_horizontal_in_place<T: Pixel>(plane: &mut Plane<T>)
    ensures table { table_of plane.new ≡ map reverse (table_of plane.old) }
    ensures border { KeepsBorder plane.old plane.new }
{
    let VisibleMut {
        entries,
        width,
        height,
        stride,
    } = plane.visible_mut();
    rows::flip_horizontal_in_place(entries, width, height, stride);
}

/// Rotates the visible pixels of `plane` by 180 degrees in place. The padding stays unchanged.
pub fn rotate_180_in_place<T: Pixel>(plane: &mut Plane<T>)
    ensures table { table_of plane.new ≡ rotated_180 (table_of plane.old) }
    ensures border { KeepsBorder plane.old plane.new }
{
    let VisibleMut {
        entries,
        width,
        height,
        stride,
    } = plane.visible_mut();
    rows::rotate_180_in_place(entries, width, height, stride);
}

//! Rotated and mirrored pictures: calls, and the results that their contracts promise.
ghost use Rattle.std.specs.Prelude.{◌≡◌, length, map, reverse, Err, OnErr, OnOk};
ghost use Rattle.v_frame.specs.Prelude.{height_of, strided_rows, table_of, tables_of, width_of, ChromaSubsampling};
ghost use Rattle.v_frame.specs.Prelude.{KeepsBorder, KeepsBorders, KeepsRest, RowsFit};
ghost use Rattle.v_frame_turn.specs.Prelude.{rotated_90, turned_tables};
ghost use Rattle.v_frame_turn.specs.declared.error.TurnError.{TurnError};

use v_frame::frame::Frame;
use v_frame::pixel::Pixel;
use v_frame::plane::{Plane, PlaneRef, RowsRef};
use v_frame_turn::laws::{quarter_turns_add_up, shown_tables_have_sizes};
use v_frame_turn::{Turn, TurnError, frames, rotate_90, rotate_270, rows};

/// Rotates a video that was recorded with the camera on its side, so that it is upright.
pub fn show_upright<T: Pixel>(source: &PlaneRef<'_, T>, target: &mut Plane<T>)
    requires wide { source.now.geometry.height ≡ target.old.geometry.width }
    requires high { source.now.geometry.width ≡ target.old.geometry.height }
    ensures table { table_of target.new ≡ rotated_90 (table_of source.now) }
    ensures border { KeepsBorder target.old target.new }
{
    rotate_90(source, target);
}

/// Rotates a picture by 270 degrees into one plane, and from there by 90 degrees into another plane. The second plane then
/// equals the picture.
pub fn turn_there_and_back<T: Pixel>(
    source: &PlaneRef<'_, T>,
    between: &mut Plane<T>,
    target: &mut Plane<T>,
)
    requires wide { source.now.geometry.height ≡ between.old.geometry.width }
    requires high { source.now.geometry.width ≡ between.old.geometry.height }
    requires target_wide { source.now.geometry.width ≡ target.old.geometry.width }
    requires target_high { source.now.geometry.height ≡ target.old.geometry.height }
    ensures table { table_of target.new ≡ table_of source.now }
    ensures border { KeepsBorder target.old target.new }
{
    shown_tables_have_sizes(source);
    quarter_turns_add_up::<T>();
    rotate_270(source, between);
    rotate_90(&between.as_plane_ref(), target);
}

/// Mirrors the picture of a camera that faces its user, so that it looks like a mirror image.
pub fn mirror<T: Pixel>(frame: &mut Frame<T>)
    ensures shown { tables_of frame.new ≡ turned_tables (map reverse) (tables_of frame.old) }
    ensures borders { KeepsBorders frame.old frame.new }
{
    frames::flip_horizontal_in_place(frame);
}

/// Rotates a frame by 90 degrees. A 4:2:2 frame is rejected for every target.
pub fn turn_frame_right<T: Pixel>(source: &Frame<T>, target: &mut Frame<T>) -> Result<(), TurnError>
    ensures shown { OnOk result (tables_of target.new
        ≡ turned_tables rotated_90 (tables_of source.now)) }
    ensures uneven { source.now.subsampling ≡ ChromaSubsampling.Yuv422
        → result ≡ Err TurnError.UnevenSubsampling }
    ensures unchanged { OnErr result (target.new ≡ target.old) }
    ensures borders { KeepsBorders target.old target.new }
{
    frames::turn_frame(source, target, Turn::Rotate90)
}

/// Writes a picture that is stored with its last row first, as in a BMP file, with its first row first.
pub fn store_top_down<T: Pixel>(
    bottom_up: &RowsRef<'_, T>,
    buffer: &mut [T],
    width: usize,
    height: usize,
    stride: usize,
)
    requires fit { RowsFit width height stride (length buffer.old) }
    requires wide { width_of bottom_up.now ≡ width }
    requires high { height_of bottom_up.now ≡ height }
    ensures table { strided_rows width height stride buffer.new ≡ reverse bottom_up.now }
    ensures rest { KeepsRest width height stride buffer.old buffer.new }
{
    rows::flip_vertical(bottom_up, buffer, width, height, stride);
}

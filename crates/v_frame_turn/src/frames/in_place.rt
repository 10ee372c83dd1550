//! Frames flipped, mirrored or rotated by 180 degrees in place, plane by plane. The padding stays unchanged.
ghost use Rattle.std.specs.Prelude.{◌≡◌, map, option_map, reverse};
ghost use Rattle.v_frame.specs.Prelude.{border_and_geometry, table_of, tables_of, KeepsBorders};
ghost use Rattle.v_frame_turn.specs.Frames.{turned_tables};
ghost use Rattle.v_frame_turn.specs.Turn.{rotated_180};

use crate::flip;
use v_frame::frame::Frame;
use v_frame::pixel::Pixel;
use v_frame::plane::Plane;

/// Flips each plane of `frame` upside down in place. The padding stays unchanged.
pub fn flip_vertical_in_place<T: Pixel>(frame: &mut Frame<T>)
    ensures shown { tables_of frame.new ≡ turned_tables reverse (tables_of frame.old) }
    ensures borders { KeepsBorders frame.old frame.new }
{
    flip::flip_vertical_in_place(&mut frame.y_plane);
    flip_vertical_of_chroma(&mut frame.u_plane);
    flip_vertical_of_chroma(&mut frame.v_plane);
}

/// Flips a chroma plane upside down in place, if the frame has it.
fn flip_vertical_of_chroma<T: Pixel>(plane: &mut Option<Plane<T>>)
    ensures shown { option_map table_of plane.new ≡ option_map reverse (option_map table_of plane.old) }
    ensures border { option_map border_and_geometry plane.new ≡ option_map border_and_geometry plane.old }
{
    if let Some(plane) = plane {
        flip::flip_vertical_in_place(plane);
    }
}

/// Mirrors each plane of `frame` left to right in place. The padding stays unchanged.
pub fn flip_horizontal_in_place<T: Pixel>(frame: &mut Frame<T>)
    ensures shown { tables_of frame.new ≡ turned_tables (map reverse) (tables_of frame.old) }
    ensures borders { KeepsBorders frame.old frame.new }
{
    flip::flip_horizontal_in_place(&mut frame.y_plane);
    flip_horizontal_of_chroma(&mut frame.u_plane);
    flip_horizontal_of_chroma(&mut frame.v_plane);
}

/// Mirrors a chroma plane left to right in place, if the frame has it.
fn flip_horizontal_of_chroma<T: Pixel>(plane: &mut Option<Plane<T>>)
    ensures shown { option_map table_of plane.new ≡ option_map (map reverse) (option_map table_of plane.old) }
    ensures border { option_map border_and_geometry plane.new ≡ option_map border_and_geometry plane.old }
{
    if let Some(plane) = plane {
        flip::flip_horizontal_in_place(plane);
    }
}

/// Rotates each plane of `frame` by 180 degrees in place. The padding stays unchanged.
pub fn rotate_180_in_place<T: Pixel>(frame: &mut Frame<T>)
    ensures shown { tables_of frame.new ≡ turned_tables rotated_180 (tables_of frame.old) }
    ensures borders { KeepsBorders frame.old frame.new }
{
    flip::rotate_180_in_place(&mut frame.y_plane);
    rotate_180_of_chroma(&mut frame.u_plane);
    rotate_180_of_chroma(&mut frame.v_plane);
}

/// Rotates a chroma plane by 180 degrees in place, if the frame has it.
fn rotate_180_of_chroma<T: Pixel>(plane: &mut Option<Plane<T>>)
    ensures shown { option_map table_of plane.new ≡ option_map rotated_180 (option_map table_of plane.old) }
    ensures border { option_map border_and_geometry plane.new ≡ option_map border_and_geometry plane.old }
{
    if let Some(plane) = plane {
        flip::rotate_180_in_place(plane);
    }
}

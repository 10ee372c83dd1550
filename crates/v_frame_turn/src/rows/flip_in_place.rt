//! Rows of a buffer flipped upside down, mirrored, or rotated by 180 degrees in place.
ghost use Rattle.std.specs.Prelude.{◌≡◌, length, map, reverse, true};
ghost use Rattle.v_frame.specs.Prelude.{strided_rows, KeepsRest, RowsFit};
ghost use Rattle.v_frame_turn.specs.Turn.{rotated_180};
ghost use Rattle.v_frame_turn.specs.Turning.{flipped};

use crate::rows::row::{exchange_rows, turn_row};
use v_frame::pixel::Pixel;

/// Flips the rows in `buffer` upside down in place: the last row becomes the first, as with `np.flipud`.
pub fn flip_vertical_in_place<T: Pixel>(
    buffer: &mut [T],
    width: usize,
    height: usize,
    stride: usize,
)
    requires { RowsFit width height stride (length buffer.old) }
    ensures table { strided_rows width height stride buffer.new
        ≡ reverse (strided_rows width height stride buffer.old) }
    ensures rest { KeepsRest width height stride buffer.old buffer.new }
{
    turn_upside_down(buffer, width, height, stride, false);
}

/// Mirrors the rows in `buffer` left to right in place: the last pixel of each row becomes the first, as with `np.fliplr`.
#[tactic(auto, using(v_frame_raster::proofs::tables::StridedWrites::row_ends))]
pub fn flip_horizontal_in_place<T: Pixel>(
    buffer: &mut [T],
    width: usize,
    height: usize,
    stride: usize,
)
    requires { RowsFit width height stride (length buffer.old) }
    ensures table { strided_rows width height stride buffer.new
        ≡ map reverse (strided_rows width height stride buffer.old) }
    ensures rest { KeepsRest width height stride buffer.old buffer.new }
{
    for y in 0..height {
        let start = stride * y;
        turn_row(&mut buffer[start..start + width], true);
    }
}

/// Rotates the rows in `buffer` by 180 degrees in place.
pub fn rotate_180_in_place<T: Pixel>(buffer: &mut [T], width: usize, height: usize, stride: usize)
    requires { RowsFit width height stride (length buffer.old) }
    ensures table { strided_rows width height stride buffer.new
        ≡ rotated_180 (strided_rows width height stride buffer.old) }
    ensures rest { KeepsRest width height stride buffer.old buffer.new }
{
    turn_upside_down(buffer, width, height, stride, true);
}

/// Flips the rows in `buffer` upside down in place, and also mirrors them if `mirrored` is true.
#[inline(always)]
#[tactic(auto, using(v_frame_raster::proofs::tables::StridedWrites::row_ends))]
fn turn_upside_down<T: Pixel>(
    buffer: &mut [T],
    width: usize,
    height: usize,
    stride: usize,
    mirrored: bool,
)
    requires { RowsFit width height stride (length buffer.old) }
    ensures table { strided_rows width height stride buffer.new
        ≡ flipped true mirrored (strided_rows width height stride buffer.old) }
    ensures rest { KeepsRest width height stride buffer.old buffer.new }
{
    for y in 0..height / 2 {
        let (top, bottom) = (stride * y, stride * (height - 1 - y));
        let (above, below) = buffer.split_at_mut(bottom);
        exchange_rows(&mut above[top..top + width], &mut below[..width], mirrored);
    }
    if height % 2 == 1 {
        let middle = stride * (height / 2);
        turn_row(&mut buffer[middle..middle + width], mirrored);
    }
}

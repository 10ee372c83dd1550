//! Pictures transformed by an operation that is a value.
ghost use Rattle.std.specs.Prelude.{◌≡◌, length};
ghost use Rattle.v_frame.specs.Prelude.{height_of, strided_rows, width_of, KeepsRest, RowsFit};
ghost use Rattle.v_frame_turn.specs.Frames.{exchanges, turned, SizeFits};

use super::flip::{flip_horizontal, flip_vertical, rotate_180};
use super::quarter::{rotate_90, rotate_270, transpose};
use crate::turns::Turn;
use v_frame::pixel::Pixel;
use v_frame::plane::RowsRef;

/// Writes `source`, transformed by `turn`, into the rows in `buffer`. The rows have the size of `source`, with width and height
/// exchanged if [`exchanges_sizes`](crate::Turn::exchanges_sizes) returns true.
pub fn turn<T: Pixel>(
    source: &RowsRef<'_, T>,
    buffer: &mut [T],
    width: usize,
    height: usize,
    stride: usize,
    turn: Turn,
)
    requires fit { RowsFit width height stride (length buffer.old) }
    requires size { SizeFits (exchanges turn) (width_of source.now) (height_of source.now) width height }
    ensures table { strided_rows width height stride buffer.new ≡ turned turn source.now }
    ensures rest { KeepsRest width height stride buffer.old buffer.new }
{
    match turn {
        Turn::FlipVertical => flip_vertical(source, buffer, width, height, stride),
        Turn::FlipHorizontal => flip_horizontal(source, buffer, width, height, stride),
        Turn::Rotate180 => rotate_180(source, buffer, width, height, stride),
        Turn::Transpose => transpose(source, buffer, width, height, stride),
        Turn::Rotate90 => rotate_90(source, buffer, width, height, stride),
        Turn::Rotate270 => rotate_270(source, buffer, width, height, stride),
    }
}

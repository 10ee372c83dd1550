//! Pictures that are mirrored, transposed or rotated, for any type of pixel.
ghost use Rattle.std.specs.Prelude.{IsTrue, SomeIff};
ghost use Rattle.v_frame_slices.specs.Made.{IsTurned};
ghost use Rattle.v_frame_slices.specs.Numbers.{is_turn, turn_by};

use crate::layout::Rows;
use crate::status::{FIRST, NUMBER, OK, SECOND, SIZES};
use v_frame::pixel::Pixel;
use v_frame_turn::{Turn, rows as turns};

/// Writes the picture of the source rows mirrored, transposed or rotated. The number selects one of these operations.
pub fn turn<T: Pixel>(
    rows: &Rows,
    buffer: &mut [T],
    source_rows: &Rows,
    source: &[T],
    number: u32,
) -> u32
    ensures made { IsTurned rows.now source_rows.now source.now buffer.old buffer.new result number }
{
    let Some(turn) = numbered_turn(number) else {
        return NUMBER;
    };
    if !rows.fit(buffer.len()) {
        return FIRST;
    }
    let Some(source) = source_rows.of(source) else {
        return SECOND;
    };
    if !rows.has_turned_size_of(source_rows, turn) {
        return SIZES;
    }
    turns::turn(&source, buffer, rows.width, rows.height, rows.stride, turn);
    OK
}

/// Returns the operation with a number, or `None` if there is none.
fn numbered_turn(number: u32) -> Option<Turn>
    ensures { SomeIff result (IsTrue (is_turn number)) (turn_by number) }
{
    match number {
        0 => Some(Turn::FlipVertical),
        1 => Some(Turn::FlipHorizontal),
        2 => Some(Turn::Rotate180),
        3 => Some(Turn::Transpose),
        4 => Some(Turn::Rotate90),
        5 => Some(Turn::Rotate270),
        _ => None,
    }
}

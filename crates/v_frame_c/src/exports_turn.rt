//! The exports that turn pictures.
ghost use Rattle.v_frame_slices.specs.Made.{IsTurned};

use v_frame_slices::layout::Rows;
use v_frame_slices::turn;

/// Writes the picture of the source rows turned in the way of a number: 0 upside down, 1 mirrored, 2 rotated by 180 degrees, 3
/// transposed, 4 and 5 rotated by 90 and 270 degrees clockwise.
#[unsafe(no_mangle)]
pub extern "C" fn v_frame_turn_u8(
    rows: &Rows,
    buffer: &mut [u8],
    source_rows: &Rows,
    source: &[u8],
    number: u32,
) -> u32
    ensures made { IsTurned rows.now source_rows.now source.now buffer.old buffer.new result number }
{
    turn::turn(rows, buffer, source_rows, source, number)
}

/// Writes the picture of the source rows turned in the way of a number: 0 upside down, 1 mirrored, 2 rotated by 180 degrees, 3
/// transposed, 4 and 5 rotated by 90 and 270 degrees clockwise.
#[unsafe(no_mangle)]
pub extern "C" fn v_frame_turn_u16(
    rows: &Rows,
    buffer: &mut [u16],
    source_rows: &Rows,
    source: &[u16],
    number: u32,
) -> u32
    ensures made { IsTurned rows.now source_rows.now source.now buffer.old buffer.new result number }
{
    turn::turn(rows, buffer, source_rows, source, number)
}

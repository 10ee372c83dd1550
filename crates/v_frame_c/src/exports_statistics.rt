//! The exports for statistics of pictures.
ghost use Rattle.v_frame.specs.Prelude.{one_byte, two_bytes};
ghost use Rattle.v_frame_slices.specs.Found.{SumsPairs, SumsPixels};

use v_frame_slices::layout::Rows;
use v_frame_slices::statistics::{self, PairStatistics, Statistics};

/// Sums the pixels of a picture and their squares, and finds the least and the greatest value.
#[unsafe(no_mangle)]
pub extern "C" fn v_frame_statistics_u8(rows: &Rows, buffer: &[u8], found: &mut Statistics) -> u32
    ensures sums { SumsPixels rows.now buffer.now one_byte.value found.old found.new result }
{
    statistics::of_picture(rows, buffer, found)
}

/// Sums the pixels of a picture and their squares, and finds the least and the greatest value.
#[unsafe(no_mangle)]
pub extern "C" fn v_frame_statistics_u16(rows: &Rows, buffer: &[u16], found: &mut Statistics) -> u32
    ensures sums { SumsPixels rows.now buffer.now two_bytes.value found.old found.new result }
{
    statistics::of_picture(rows, buffer, found)
}

/// Sums the pixels of two pictures of one size, their squares and their products.
#[unsafe(no_mangle)]
pub extern "C" fn v_frame_pair_statistics_u8(
    a_rows: &Rows,
    a: &[u8],
    b_rows: &Rows,
    b: &[u8],
    found: &mut PairStatistics,
) -> u32
    ensures sums { SumsPairs a_rows.now b_rows.now a.now b.now one_byte found.old found.new result }
{
    statistics::of_pair(a_rows, a, b_rows, b, found)
}

/// Sums the pixels of two pictures of one size, their squares and their products.
#[unsafe(no_mangle)]
pub extern "C" fn v_frame_pair_statistics_u16(
    a_rows: &Rows,
    a: &[u16],
    b_rows: &Rows,
    b: &[u16],
    found: &mut PairStatistics,
) -> u32
    ensures sums { SumsPairs a_rows.now b_rows.now a.now b.now two_bytes found.old found.new result }
{
    statistics::of_pair(a_rows, a, b_rows, b, found)
}

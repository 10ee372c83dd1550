//! The exports for measures of two pictures.
ghost use Rattle.v_frame.specs.Prelude.{one_byte, two_bytes};
ghost use Rattle.v_frame_slices.specs.Found.{CountsAbove, FindsGreatest, MeasuresError, MeasuresSimilarity};

use v_frame_slices::layout::Rows;
use v_frame_slices::measures::{self, Greatest};

/// Measures the mean squared error of two pictures of one size.
#[unsafe(no_mangle)]
pub extern "C" fn v_frame_mean_squared_error_u8(
    a_rows: &Rows,
    a: &[u8],
    b_rows: &Rows,
    b: &[u8],
    error: &mut f64,
) -> u32
    ensures measures { MeasuresError a_rows.now b_rows.now a.now b.now one_byte error.old error.new result }
{
    measures::mean_squared_error(a_rows, a, b_rows, b, error)
}

/// Measures the mean squared error of two pictures of one size.
#[unsafe(no_mangle)]
pub extern "C" fn v_frame_mean_squared_error_u16(
    a_rows: &Rows,
    a: &[u16],
    b_rows: &Rows,
    b: &[u16],
    error: &mut f64,
) -> u32
    ensures measures { MeasuresError a_rows.now b_rows.now a.now b.now two_bytes error.old error.new result }
{
    measures::mean_squared_error(a_rows, a, b_rows, b, error)
}

/// Measures the structural similarity (SSIM) of two pictures of one size.
#[unsafe(no_mangle)]
pub extern "C" fn v_frame_ssim_u8(
    a_rows: &Rows,
    a: &[u8],
    b_rows: &Rows,
    b: &[u8],
    similarity: &mut f64,
) -> u32
    ensures measures { MeasuresSimilarity a_rows.now b_rows.now a.now b.now one_byte 1 8 similarity.old
        similarity.new result }
{
    measures::ssim(a_rows, a, b_rows, b, 8, similarity)
}

/// Measures the structural similarity (SSIM) of two pictures of one size whose samples have a bit depth.
#[unsafe(no_mangle)]
pub extern "C" fn v_frame_ssim_u16(
    a_rows: &Rows,
    a: &[u16],
    b_rows: &Rows,
    b: &[u16],
    bit_depth: u32,
    similarity: &mut f64,
) -> u32
    ensures measures { MeasuresSimilarity a_rows.now b_rows.now a.now b.now two_bytes 2 bit_depth similarity.old
        similarity.new result }
{
    measures::ssim(a_rows, a, b_rows, b, bit_depth, similarity)
}

/// Finds the greatest difference of the values of two pictures of one size, and the first place that has it.
#[unsafe(no_mangle)]
pub extern "C" fn v_frame_greatest_difference_u8(
    a_rows: &Rows,
    a: &[u8],
    b_rows: &Rows,
    b: &[u8],
    found: &mut Greatest,
) -> u32
    ensures finds { FindsGreatest a_rows.now b_rows.now a.now b.now one_byte found.old found.new result }
{
    measures::greatest_difference(a_rows, a, b_rows, b, found)
}

/// Finds the greatest difference of the values of two pictures of one size, and the first place that has it.
#[unsafe(no_mangle)]
pub extern "C" fn v_frame_greatest_difference_u16(
    a_rows: &Rows,
    a: &[u16],
    b_rows: &Rows,
    b: &[u16],
    found: &mut Greatest,
) -> u32
    ensures finds { FindsGreatest a_rows.now b_rows.now a.now b.now two_bytes found.old found.new result }
{
    measures::greatest_difference(a_rows, a, b_rows, b, found)
}

/// Counts the places at which the values of two pictures of one size differ by more than a threshold.
#[unsafe(no_mangle)]
pub extern "C" fn v_frame_count_above_u8(
    a_rows: &Rows,
    a: &[u8],
    b_rows: &Rows,
    b: &[u8],
    threshold: u16,
    count: &mut u64,
) -> u32
    ensures counts { CountsAbove a_rows.now b_rows.now a.now b.now one_byte threshold count.old count.new result }
{
    measures::count_above(a_rows, a, b_rows, b, threshold, count)
}

/// Counts the places at which the values of two pictures of one size differ by more than a threshold.
#[unsafe(no_mangle)]
pub extern "C" fn v_frame_count_above_u16(
    a_rows: &Rows,
    a: &[u16],
    b_rows: &Rows,
    b: &[u16],
    threshold: u16,
    count: &mut u64,
) -> u32
    ensures counts { CountsAbove a_rows.now b_rows.now a.now b.now two_bytes threshold count.old count.new result }
{
    measures::count_above(a_rows, a, b_rows, b, threshold, count)
}

//! Measures of two pictures, for any type of pixel.
ghost use Rattle.v_frame_slices.specs.Found.{CountsAbove, FindsGreatest, MeasuresError, MeasuresSimilarity};

use crate::convert::is_depth;
use crate::layout::Rows;
use crate::status::{FIRST, NUMBER, OK, SECOND, SIZES, WINDOWS};
use v_frame::pixel::Pixel;
use v_frame_measures::rows as measures;

/// The greatest difference of two pictures, and the first place where it occurs.
#[derive(Drop)]
#[repr(C)]
pub struct Greatest {
    pub x: usize,
    pub y: usize,
    pub difference: u32,
}

/// Measures the mean squared error of two pictures of the same size.
pub fn mean_squared_error<T: Pixel>(
    a_rows: &Rows,
    a: &[T],
    b_rows: &Rows,
    b: &[T],
    error: &mut f64,
) -> u32
    ensures measures { MeasuresError a_rows.now b_rows.now a.now b.now T.form error.old error.new result }
{
    let Some(first) = a_rows.of(a) else {
        return FIRST;
    };
    let Some(second) = b_rows.of(b) else {
        return SECOND;
    };
    if !a_rows.same_size(b_rows) {
        return SIZES;
    }
    *error = measures::mean_squared_error(&first, &second);
    OK
}

/// Measures the structural similarity of two pictures of the same size, whose samples have the given bit depth.
pub fn ssim<T: Pixel>(
    a_rows: &Rows,
    a: &[T],
    b_rows: &Rows,
    b: &[T],
    bit_depth: u32,
    similarity: &mut f64,
) -> u32
    ensures measures { MeasuresSimilarity a_rows.now b_rows.now a.now b.now T.form T.BYTES bit_depth
        similarity.old similarity.new result }
{
    if !is_depth::<T>(bit_depth) {
        return NUMBER;
    }
    let Some(first) = a_rows.of(a) else {
        return FIRST;
    };
    let Some(second) = b_rows.of(b) else {
        return SECOND;
    };
    if !a_rows.same_size(b_rows) {
        return SIZES;
    }
    let Some(measured) = measures::ssim(&first, &second, bit_depth as u8) else {
        return WINDOWS;
    };
    *similarity = measured;
    OK
}

/// Finds the greatest difference of the values of two pictures of the same size, and the first place where it occurs.
pub fn greatest_difference<T: Pixel>(
    a_rows: &Rows,
    a: &[T],
    b_rows: &Rows,
    b: &[T],
    found: &mut Greatest,
) -> u32
    ensures finds { FindsGreatest a_rows.now b_rows.now a.now b.now T.form found.old found.new result }
{
    let Some(first) = a_rows.of(a) else {
        return FIRST;
    };
    let Some(second) = b_rows.of(b) else {
        return SECOND;
    };
    if !a_rows.same_size(b_rows) {
        return SIZES;
    }
    let greatest = measures::greatest_difference(&first, &second);
    *found = Greatest {
        x: greatest.x,
        y: greatest.y,
        difference: u32::from(greatest.difference),
    };
    OK
}

/// Counts the pixels whose values in two pictures of the same size differ by more than a threshold.
pub fn count_above<T: Pixel>(
    a_rows: &Rows,
    a: &[T],
    b_rows: &Rows,
    b: &[T],
    threshold: u16,
    count: &mut u64,
) -> u32
    ensures counts { CountsAbove a_rows.now b_rows.now a.now b.now T.form threshold count.old count.new result }
{
    let Some(first) = a_rows.of(a) else {
        return FIRST;
    };
    let Some(second) = b_rows.of(b) else {
        return SECOND;
    };
    if !a_rows.same_size(b_rows) {
        return SIZES;
    }
    *count = measures::count_above(&first, &second, threshold) as u64;
    OK
}

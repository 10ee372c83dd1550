//! Comparisons of two pictures, for any type of pixel.
ghost use Rattle.v_frame_slices.specs.Found.{FindsFirst, SumsDifferences, SumsSquares};

use crate::layout::{Place, Rows, Sum};
use crate::status::{FIRST, OK, SECOND, SIZES};
use v_frame::pixel::Pixel;
use v_frame_ops::rows;

/// Adds up the squares of the differences of two pictures of the same size.
pub fn squared_errors<T: Pixel>(
    a_rows: &Rows,
    a: &[T],
    b_rows: &Rows,
    b: &[T],
    sum: &mut Sum,
) -> u32
    ensures sums { SumsSquares a_rows.now b_rows.now a.now b.now T.form sum.old sum.new result }
{
    let Some(first) = a_rows.of(a) else {
        return FIRST;
    };
    let Some(second) = b_rows.of(b) else {
        return SECOND;
    };
    if !a_rows.same_size(b_rows) {
        return SIZES;
    }
    *sum = Sum::of(rows::sum_of_squared_errors(&first, &second));
    OK
}

/// Adds up the absolute differences of two pictures of the same size.
pub fn absolute_differences<T: Pixel>(
    a_rows: &Rows,
    a: &[T],
    b_rows: &Rows,
    b: &[T],
    sum: &mut Sum,
) -> u32
    ensures sums { SumsDifferences a_rows.now b_rows.now a.now b.now T.form sum.old sum.new result }
{
    let Some(first) = a_rows.of(a) else {
        return FIRST;
    };
    let Some(second) = b_rows.of(b) else {
        return SECOND;
    };
    if !a_rows.same_size(b_rows) {
        return SIZES;
    }
    *sum = Sum::of(rows::sum_of_absolute_differences(&first, &second));
    OK
}

/// Finds the first pixel, in the order of rows from the top, at which two pictures of the same size differ.
pub fn first_difference<T: Pixel>(
    a_rows: &Rows,
    a: &[T],
    b_rows: &Rows,
    b: &[T],
    place: &mut Place,
) -> u32
    ensures finds { FindsFirst a_rows.now b_rows.now a.now b.now place.old place.new result }
{
    let Some(first) = a_rows.of(a) else {
        return FIRST;
    };
    let Some(second) = b_rows.of(b) else {
        return SECOND;
    };
    if !a_rows.same_size(b_rows) {
        return SIZES;
    }
    *place = match rows::first_difference(&first, &second) {
        Some((x, y)) => Place { x, y, found: 1 },
        None => Place {
            x: 0,
            y: 0,
            found: 0,
        },
    };
    OK
}

//! The exports that compare pictures.
ghost use Rattle.v_frame.specs.Prelude.{one_byte, two_bytes};
ghost use Rattle.v_frame_slices.specs.Found.{FindsFirst, SumsDifferences, SumsSquares};

use v_frame_slices::compare;
use v_frame_slices::layout::{Place, Rows, Sum};

/// Sums the squares of the differences of two pictures of one size.
#[unsafe(no_mangle)]
pub extern "C" fn v_frame_squared_errors_u8(
    a_rows: &Rows,
    a: &[u8],
    b_rows: &Rows,
    b: &[u8],
    sum: &mut Sum,
) -> u32
    ensures sums { SumsSquares a_rows.now b_rows.now a.now b.now one_byte sum.old sum.new result }
{
    compare::squared_errors(a_rows, a, b_rows, b, sum)
}

/// Sums the squares of the differences of two pictures of one size.
#[unsafe(no_mangle)]
pub extern "C" fn v_frame_squared_errors_u16(
    a_rows: &Rows,
    a: &[u16],
    b_rows: &Rows,
    b: &[u16],
    sum: &mut Sum,
) -> u32
    ensures sums { SumsSquares a_rows.now b_rows.now a.now b.now two_bytes sum.old sum.new result }
{
    compare::squared_errors(a_rows, a, b_rows, b, sum)
}

/// Sums the absolute differences of two pictures of one size.
#[unsafe(no_mangle)]
pub extern "C" fn v_frame_absolute_differences_u8(
    a_rows: &Rows,
    a: &[u8],
    b_rows: &Rows,
    b: &[u8],
    sum: &mut Sum,
) -> u32
    ensures sums { SumsDifferences a_rows.now b_rows.now a.now b.now one_byte sum.old sum.new result }
{
    compare::absolute_differences(a_rows, a, b_rows, b, sum)
}

/// Sums the absolute differences of two pictures of one size.
#[unsafe(no_mangle)]
pub extern "C" fn v_frame_absolute_differences_u16(
    a_rows: &Rows,
    a: &[u16],
    b_rows: &Rows,
    b: &[u16],
    sum: &mut Sum,
) -> u32
    ensures sums { SumsDifferences a_rows.now b_rows.now a.now b.now two_bytes sum.old sum.new result }
{
    compare::absolute_differences(a_rows, a, b_rows, b, sum)
}

/// Finds the first pixel, row after row from the top, that differs in two pictures of one size.
#[unsafe(no_mangle)]
pub extern "C" fn v_frame_first_difference_u8(
    a_rows: &Rows,
    a: &[u8],
    b_rows: &Rows,
    b: &[u8],
    place: &mut Place,
) -> u32
    ensures finds { FindsFirst a_rows.now b_rows.now a.now b.now place.old place.new result }
{
    compare::first_difference(a_rows, a, b_rows, b, place)
}

/// Finds the first pixel, row after row from the top, that differs in two pictures of one size.
#[unsafe(no_mangle)]
pub extern "C" fn v_frame_first_difference_u16(
    a_rows: &Rows,
    a: &[u16],
    b_rows: &Rows,
    b: &[u16],
    place: &mut Place,
) -> u32
    ensures finds { FindsFirst a_rows.now b_rows.now a.now b.now place.old place.new result }
{
    compare::first_difference(a_rows, a, b_rows, b, place)
}

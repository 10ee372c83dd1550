//! Absolute differences between the pixels of two planes: the largest one, and the number above a threshold.
ghost use Rattle.std.specs.Prelude.{◌≡◌, ◌<◌, ◌^◌, length, nat_lt};
ghost use Rattle.std.specs.Int.{abs_diff};
ghost use Rattle.v_frame.specs.Prelude.{height_of, row_major, table_of, width_of};
ghost use Rattle.v_frame_statistics.specs.Prelude.{passing_pairs};
ghost use Rattle.v_frame_measures.specs.Differences.{DifferFirstBy, DifferNoMore, DifferSomewhere, IsGreatestDifference};

use crate::rows;
use v_frame::pixel::Pixel;
use v_frame::plane::{PlaneRef, RowsRef};

/// The largest absolute difference between the pixels of two planes, and the first position that has it.
#[derive(Clone, Copy, Debug, PartialEq, Eq)]
pub struct GreatestDifference {
    /// The absolute difference of the two pixel values at this position.
    pub difference: u16,
    /// The column of the position, counted from 0.
    pub x: usize,
    /// The row of the position, counted from 0.
    pub y: usize,
}

/// Returns the number of visible pixels whose values differ by more than `threshold` between `a` and `b`. Both planes have the
/// same size.
pub fn count_above<T: Pixel>(a: &PlaneRef<'_, T>, b: &PlaneRef<'_, T>, threshold: u16) -> usize
    requires wide { a.now.geometry.width ≡ b.now.geometry.width }
    requires high { a.now.geometry.height ≡ b.now.geometry.height }
    ensures { result ≡ passing_pairs
        (λ p q. nat_lt threshold (abs_diff (T.form.value p) (T.form.value q)))
        (row_major (table_of a.now)) (row_major (table_of b.now)) }
{
    rows::count_above(&a.as_rows_ref(), &b.as_rows_ref(), threshold)
}

/// Returns the largest absolute difference between the visible pixels of `a` and `b`, and the first position that has it. Both
/// planes have the same size. Positions are ordered from left to right within a row and from top to bottom. For equal planes
/// the difference is 0 and the position is column 0 of row 0.
pub fn greatest_difference<T: Pixel>(a: &PlaneRef<'_, T>, b: &PlaneRef<'_, T>) -> GreatestDifference
    requires wide { a.now.geometry.width ≡ b.now.geometry.width }
    requires high { a.now.geometry.height ≡ b.now.geometry.height }
    ensures { IsGreatestDifference T.form.value (table_of a.now) (table_of b.now) result }
{
    greatest_difference_of_rows(&a.as_rows_ref(), &b.as_rows_ref())
}

/// Returns the largest absolute difference between two pictures of the same size.
pub(crate) fn greatest_difference_of_rows<T: Pixel>(
    a: &RowsRef<'_, T>,
    b: &RowsRef<'_, T>,
) -> GreatestDifference
    requires wide { width_of a.now ≡ width_of b.now }
    requires high { height_of a.now ≡ height_of b.now }
    ensures { IsGreatestDifference T.form.value a.now b.now result }
{
    let _sizes = (b.height(), b.width());
    let (row, other) = (a.visible_row(0), b.visible_row(0));
    let difference = greatest_of_rows(row, other);
    let mut found = GreatestDifference {
        difference,
        x: first_place(row, other, difference),
        y: 0,
    };
    for y in 1..a.height() {
        let (row, other) = (a.visible_row(y), b.visible_row(y));
        let difference = greatest_of_rows(row, other);
        if difference > found.difference {
            let x = first_place(row, other, difference);
            found = GreatestDifference { difference, x, y };
        }
    }
    found
}

/// Returns the largest absolute difference between two rows of the same length. It is computed as a pixel, so that bytes are
/// compared as bytes.
fn greatest_of_rows<T: Pixel>(row: &[T], other: &[T]) -> u16
    requires some { 0 < length row.now }
    requires same { length other.now ≡ length row.now }
    ensures bound { DifferNoMore T.form.value row.now other.now (length row.now) result }
    ensures there { DifferSomewhere T.form.value row.now other.now result }
{
    let mut greatest = pixel_of_difference(row[0], other[0]);
    for x in 1..row.len() {
        let difference = pixel_of_difference(row[x], other[x]);
        if difference.into_u16() > greatest.into_u16() {
            greatest = difference;
        }
    }
    greatest.into_u16()
}

/// Returns the pixel whose value is the absolute difference of `p` and `q`.
#[inline(always)]
fn pixel_of_difference<T: Pixel>(p: T, q: T) -> T
    ensures { T.form.value result ≡ abs_diff (T.form.value p) (T.form.value q) }
{
    T::from_value(difference_of(p, q))
}

/// Returns the first index at which two rows have this absolute difference.
fn first_place<T: Pixel>(row: &[T], other: &[T], difference: u16) -> usize
    requires same { length other.now ≡ length row.now }
    requires there { DifferSomewhere T.form.value row.now other.now difference }
    ensures { DifferFirstBy T.form.value row.now other.now difference result }
{
    for x in 0..row.len() {
        if difference_of(row[x], other[x]) == difference {
            return x;
        }
    }
    0
}

/// Returns the absolute difference of the values of two pixels.
#[inline(always)]
pub(crate) fn difference_of<T: Pixel>(p: T, q: T) -> u16
    ensures value { result ≡ abs_diff (T.form.value p) (T.form.value q) }
    ensures fits { result < 256 ^ T.BYTES }
{
    p.into_u16().abs_diff(q.into_u16())
}

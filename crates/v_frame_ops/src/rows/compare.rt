//! Comparisons of two pictures of the same size.
ghost use Rattle.std.specs.Prelude.{◌≡◌, ◌≢◌, ◌<◌, ◌≤◌, ◌*◌, ◌^◌, ◌↔◌, ℕ, length, slice_get, IsNone, IsTrue, IfSome};
ghost use Rattle.v_frame.specs.Prelude.{absolute_differences, height_of, row_major, squared_errors, width_of};
ghost use Rattle.v_frame_ops.specs.Compare.{SameBelow, DifferFirstAt, IsFirstDifference};

use crate::laws::tables_agree_by_pixels;
use crate::rows::sums::{AbsoluteDifferences, SquaredErrors, sum_of};
use v_frame::pixel::Pixel;
use v_frame::plane::RowsRef;

/// Returns the sum of absolute differences (SAD) of two pictures of the same size: the sum of `|p - q|` over all pairs of
/// pixels `p` of `a` and `q` of `b` at the same column and row. The sum is exact and never overflows.
#[inline(always)]
pub fn sum_of_absolute_differences<T: Pixel>(a: &RowsRef<'_, T>, b: &RowsRef<'_, T>) -> u128
    requires wide { width_of a.now ≡ width_of b.now }
    requires high { height_of a.now ≡ height_of b.now }
    ensures { result ≡ absolute_differences T.form.value (row_major a.now) (row_major b.now) }
{
    sum_of::<T, AbsoluteDifferences>(a, b)
}

/// Returns the sum of squared errors (SSE) of two pictures of the same size: the sum of `(p - q)^2` over all pairs of pixels
/// `p` of `a` and `q` of `b` at the same column and row. The sum is exact and never overflows.
#[inline(always)]
pub fn sum_of_squared_errors<T: Pixel>(a: &RowsRef<'_, T>, b: &RowsRef<'_, T>) -> u128
    requires wide { width_of a.now ≡ width_of b.now }
    requires high { height_of a.now ≡ height_of b.now }
    ensures value { result ≡ squared_errors T.form.value (row_major a.now) (row_major b.now) }
    ensures bound { result ≤ 2 ^ 32 * (height_of a.now * width_of a.now) }
{
    sum_of::<T, SquaredErrors>(a, b)
}

/// Returns the column and the row of the first pixel that differs between two pictures of the same size. Pixels are compared
/// from left to right within a row, and rows from top to bottom. Returns `None` if and only if all pixels are equal.
pub fn first_difference<T: Pixel>(a: &RowsRef<'_, T>, b: &RowsRef<'_, T>) -> Option<(usize, usize)>
    requires wide { width_of a.now ≡ width_of b.now }
    requires high { height_of a.now ≡ height_of b.now }
    ensures none { IsNone result ↔ (a.now ≡ b.now) }
    ensures first { IfSome result (λ place. IsFirstDifference a.now b.now place.0 place.1) }
    ensures within { IfSome result (λ place.
        (place.0 < width_of a.now) × (place.1 < height_of a.now)) }
{
    tables_agree_by_pixels::<T>();
    let _sizes = (a.width(), b.width(), b.height());
    for y in 0..a.height() {
        if let Some(x) = first_difference_of_rows(a.visible_row(y), b.visible_row(y)) {
            return Some((x, y));
        }
    }
    None
}

/// Returns the first index at which two rows of the same length differ. Equal rows are recognized by one comparison of the
/// whole rows, which handles many pixels at a time.
fn first_difference_of_rows<T: Pixel>(row: &[T], other: &[T]) -> Option<usize>
    requires { length row.now ≡ length other.now }
    ensures none { IsNone result → SameBelow row.now other.now (length row.now) }
    ensures first { IfSome result (DifferFirstAt row.now other.now) }
{
    if are_rows_same(row, other) {
        return None;
    }
    for x in 0..row.len() {
        if !are_same(row[x], other[x]) {
            return Some(x);
        }
    }
    None
}

/// Returns whether two rows are equal.
fn are_rows_same<T: Pixel>(row: &[T], other: &[T]) -> bool
    ensures { IsTrue result ↔ (row.now ≡ other.now) }
{
    row == other
}

/// Returns whether two pixels are equal.
fn are_same<T: Pixel>(p: T, q: T) -> bool
    ensures { IsTrue result ↔ (p ≡ q) }
{
    p == q
}

//! Comparisons of two planes of the same size: the sum of absolute differences, the sum of squared errors, and the first pixel
//! that differs.
ghost use Rattle.std.specs.Prelude.{◌≡◌, ◌<◌, ◌↔◌, IsNone, IfSome};
ghost use Rattle.v_frame.specs.Prelude.{absolute_differences, row_major, squared_errors, table_of};
ghost use Rattle.v_frame_ops.specs.Compare.{IsFirstDifference};

use crate::rows;
use v_frame::pixel::Pixel;
use v_frame::plane::PlaneRef;

/// Returns the sum of absolute differences (SAD) of two planes of the same size: the sum of `|p - q|` over all pairs of visible
/// pixels `p` of `a` and `q` of `b` at the same column and row. The sum is exact and never overflows.
#[inline(always)]
pub fn sum_of_absolute_differences<T: Pixel>(a: &PlaneRef<'_, T>, b: &PlaneRef<'_, T>) -> u128
    requires wide { a.now.geometry.width ≡ b.now.geometry.width }
    requires high { a.now.geometry.height ≡ b.now.geometry.height }
    ensures { result ≡ absolute_differences T.form.value (row_major (table_of a.now))
        (row_major (table_of b.now)) }
{
    rows::sum_of_absolute_differences(&a.as_rows_ref(), &b.as_rows_ref())
}

/// Returns the sum of squared errors (SSE) of two planes of the same size: the sum of `(p - q)^2` over all pairs of visible
/// pixels `p` of `a` and `q` of `b` at the same column and row. The sum is exact and never overflows.
#[inline(always)]
pub fn sum_of_squared_errors<T: Pixel>(a: &PlaneRef<'_, T>, b: &PlaneRef<'_, T>) -> u128
    requires wide { a.now.geometry.width ≡ b.now.geometry.width }
    requires high { a.now.geometry.height ≡ b.now.geometry.height }
    ensures { result ≡ squared_errors T.form.value (row_major (table_of a.now))
        (row_major (table_of b.now)) }
{
    rows::sum_of_squared_errors(&a.as_rows_ref(), &b.as_rows_ref())
}

/// Returns the column and the row of the first visible pixel that differs between two planes of the same size. Pixels are
/// compared from left to right within a row, and rows from top to bottom. Returns `None` if and only if all visible pixels are
/// equal.
pub fn first_difference<T: Pixel>(
    a: &PlaneRef<'_, T>,
    b: &PlaneRef<'_, T>,
) -> Option<(usize, usize)>
    requires wide { a.now.geometry.width ≡ b.now.geometry.width }
    requires high { a.now.geometry.height ≡ b.now.geometry.height }
    ensures none { IsNone result ↔ (table_of a.now ≡ table_of b.now) }
    ensures first { IfSome result (λ place.
        IsFirstDifference (table_of a.now) (table_of b.now) place.0 place.1) }
    ensures within { IfSome result (λ place.
        (place.0 < a.now.geometry.width) × (place.1 < a.now.geometry.height)) }
{
    rows::first_difference(&a.as_rows_ref(), &b.as_rows_ref())
}

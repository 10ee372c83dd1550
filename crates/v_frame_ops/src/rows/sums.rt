//! Sums over the differences between the pixels of two pictures of the same size.
ghost use Rattle.std.specs.Prelude.{◌≡◌, ◌*◌, ◌^◌, ◌≤◌, ℕ, length, sum_by, zip};
ghost use Rattle.std.specs.Int.{abs_diff};
ghost use Rattle.v_frame.specs.Prelude.{AddsUp, height_of, squared_error, width_of};
ghost use Rattle.v_frame_ops.specs.Compare.{IsSumOver};

use v_frame::laws::sums_of_pairs_add_up;
use v_frame::pixel::Pixel;
use v_frame::plane::RowsRef;

/// A measure of the difference between two pixels that can be summed over rows.
pub(crate) trait RowDifference<T> {
    // The summand for two pixels at the same position.
    ghost between: { T → T → ℕ };

    /// Returns the sum of the summands over two rows of the same length.
    fn of_rows(a: &[T], b: &[T]) -> u128
        requires { length a.now ≡ length b.now }
        ensures value { result ≡ sum_by (λ p. between p.0 p.1) (zip a.now b.now) }
        ensures fits { result ≤ 2 ^ 32 * length a.now };
}

/// The absolute difference of two pixels.
pub(crate) struct AbsoluteDifferences;

impl<T: Pixel> RowDifference<T> for AbsoluteDifferences {
    ghost between = { λ p q. abs_diff (T.form.value p) (T.form.value q) };

    #[inline(always)]
    fn of_rows(a: &[T], b: &[T]) -> u128 {
        T::sum_of_absolute_differences(a, b)
    }
}

/// The squared difference of two pixels.
pub(crate) struct SquaredErrors;

impl<T: Pixel> RowDifference<T> for SquaredErrors {
    ghost between = { λ p q. squared_error (T.form.value p) (T.form.value q) };

    #[inline(always)]
    fn of_rows(a: &[T], b: &[T]) -> u128 {
        T::sum_of_squared_errors(a, b)
    }
}

/// The sum over two pictures is the sum over the pairs of their rows.
fn differences_add_up<T, D: RowDifference<T>>()
    ensures { AddsUp (λ xs ys. sum_by (λ p. D.between p.0 p.1) (zip xs ys)) }
{
    sums_of_pairs_add_up::<T>();
}

/// Returns the sum over the pixels of two pictures. The size 8 by 8 is handled here, so that the compiler inlines it at the
/// call.
#[inline(always)]
pub(crate) fn sum_of<T: Pixel, D: RowDifference<T>>(a: &RowsRef<'_, T>, b: &RowsRef<'_, T>) -> u128
    requires wide { width_of a.now ≡ width_of b.now }
    requires high { height_of a.now ≡ height_of b.now }
    ensures { IsSumOver D.between a.now b.now result }
{
    if a.width() == 8 && a.height() == 8 {
        return sum_of_size::<T, D>(a, b, 8, 8);
    }
    sum_of_any_size::<T, D>(a, b)
}

/// Returns the sum over the pixels of two pictures of any size. The function is never inlined, so that the code for 8 by 8
/// blocks stays small in the caller.
#[inline(never)]
fn sum_of_any_size<T: Pixel, D: RowDifference<T>>(a: &RowsRef<'_, T>, b: &RowsRef<'_, T>) -> u128
    requires wide { width_of a.now ≡ width_of b.now }
    requires high { height_of a.now ≡ height_of b.now }
    ensures { IsSumOver D.between a.now b.now result }
{
    match a.width() {
        8 => sum_of_size::<T, D>(a, b, 8, a.height()),
        16 => sum_of_size::<T, D>(a, b, 16, a.height()),
        // For pixels of two bytes, rows of these widths are faster with a width that is not a constant.
        32 if T::BYTES == 1 => sum_of_size::<T, D>(a, b, 32, a.height()),
        64 if T::BYTES == 1 => sum_of_size::<T, D>(a, b, 64, a.height()),
        _ => sum_of_any_width::<T, D>(a, b),
    }
}

/// Returns the sum over the pixels of two pictures of any width. The function is never inlined, so that a call for a small
/// block saves no registers for it.
#[inline(never)]
fn sum_of_any_width<T: Copy, D: RowDifference<T>>(a: &RowsRef<'_, T>, b: &RowsRef<'_, T>) -> u128
    requires wide { width_of a.now ≡ width_of b.now }
    requires high { height_of a.now ≡ height_of b.now }
    ensures { IsSumOver D.between a.now b.now result }
{
    sum_of_size::<T, D>(a, b, a.width(), a.height())
}

/// Returns the sum over the pixels of two pictures of this size. If `width` is a constant, the row loop needs no length check.
/// If `height` is also a constant, the compiler unrolls the loop over the rows of a small block.
#[inline(always)]
fn sum_of_size<T: Copy, D: RowDifference<T>>(
    a: &RowsRef<'_, T>,
    b: &RowsRef<'_, T>,
    width: usize,
    height: usize,
) -> u128
    requires wide { width_of a.now ≡ width }
    requires same { width_of b.now ≡ width }
    requires high { height_of a.now ≡ height }
    requires as_high { height_of b.now ≡ height }
    ensures { IsSumOver D.between a.now b.now result }
{
    differences_add_up::<T, D>();
    let _heights = (a.height(), b.height());
    let mut sum = 0;
    for y in 0..height {
        sum += D::of_rows(&a.visible_row(y)[..width], &b.visible_row(y)[..width]);
    }
    sum
}

//! Iterations over planes: sums, counts and extremes of their pixels.
ghost use Rattle.std.specs.Prelude.{◌≡◌, ◌↔◌, ◌≤◌, not, All, Contains, length, count_by, sum_by, IfSome, IsNone};
ghost use Rattle.std.specs.List.{zip};
ghost use Rattle.v_frame.specs.Prelude.{table_of, row_major};

use v_frame::pixel::Pixel;
use v_frame::plane::Plane;

/// Returns the sum of the visible pixels.
pub fn sum_of_pixels<T: Pixel>(plane: &Plane<T>) -> u128
    ensures { result ≡ sum_by T.form.value (row_major (table_of plane.now)) }
{
    let mut sum = 0;
    for pixel in plane.pixels() {
        sum += u128::from(pixel.into_u16());
    }
    sum
}

/// Returns the number of positions at which the visible pixels of two planes differ. The planes must have the same size.
pub fn count_of_differing_pixels<T: Pixel>(a: &Plane<T>, b: &Plane<T>) -> usize
    requires wide { a.now.geometry.width ≡ b.now.geometry.width }
    requires high { a.now.geometry.height ≡ b.now.geometry.height }
    ensures { result ≡ count_by (λ pair. not (T.eq pair.0 pair.1))
        (zip (row_major (table_of a.now)) (row_major (table_of b.now))) }
{
    let mut count = 0;
    for (p, q) in a.pixels().zip(b.pixels()) {
        if p != q {
            count += 1;
        }
    }
    count
}

/// Returns the largest pixel of a row, or `None` if the row is empty.
pub fn largest_pixel<T: Pixel>(row: &[T]) -> Option<T>
    ensures found { IfSome result (λ pixel. Contains row.now pixel) }
    ensures largest { IfSome result (λ pixel.
        All (λ other. T.form.value other ≤ T.form.value pixel) row.now) }
    ensures none { IsNone result ↔ (length row.now ≡ 0) }
{
    row.iter().copied().max()
}

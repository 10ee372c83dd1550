//! Questions about pictures: the number of pixels that changed, the brightness, and the sums that SSIM requires for a block.
ghost use Rattle.std.specs.Prelude.{◌≡◌, ◌/◌, IfOk, count_by, length, nat_eq, nat_lt, not};
ghost use Rattle.v_frame.specs.Prelude.{IsInside, rectangle, row_major, table_of};
ghost use Rattle.v_frame_statistics.specs.Prelude.{ArePairSums, IsGreatest, IsLeast, occurrences, passing_pairs, sum_of_values};

use std::alloc::{AllocError, Global};
use v_frame::pixel::Pixel;
use v_frame::plane::{PlaneRef, RowsRef};
use v_frame_statistics::rows::{self, PairSums};
use v_frame_statistics::{
    count_pairs, count_pixels, histogram, histogram_of_depth, maximum, minimum, pair_sums,
    sum_and_count,
};

/// Returns the number of pixels that differ between two planes of the same size.
pub fn changed_pixels(a: &PlaneRef<'_, u8>, b: &PlaneRef<'_, u8>) -> usize
    requires wide { a.now.geometry.width ≡ b.now.geometry.width }
    requires high { a.now.geometry.height ≡ b.now.geometry.height }
    ensures { result ≡ passing_pairs (λ p q. not (nat_eq p q)) (row_major (table_of a.now))
        (row_major (table_of b.now)) }
{
    count_pairs(a, b, |p, q| p != q)
}

/// Returns the number of pixels of `a` that are darker than in `b`. Both planes have the same size.
pub fn darker_pixels(a: &PlaneRef<'_, u16>, b: &PlaneRef<'_, u16>) -> usize
    requires wide { a.now.geometry.width ≡ b.now.geometry.width }
    requires high { a.now.geometry.height ≡ b.now.geometry.height }
    ensures { result ≡ passing_pairs nat_lt (row_major (table_of a.now))
        (row_major (table_of b.now)) }
{
    count_pairs(a, b, |p, q| p < q)
}

/// Returns the number of pixels that are brighter than `limit`.
pub fn bright_pixels(plane: &PlaneRef<'_, u16>, limit: u16) -> usize
    ensures { result ≡ count_by (λ p. nat_lt limit p) (row_major (table_of plane.now)) }
{
    count_pixels(plane, |p| p > limit)
}

/// Returns the number of pixels that are brighter than `limit`, for rows outside a plane.
pub fn bright_pixels_of_rows(rows: &RowsRef<'_, u8>, limit: u8) -> usize
    ensures { result ≡ count_by (λ p. nat_lt limit p) (row_major rows.now) }
{
    rows::count_pixels(rows, |p| p > limit)
}

/// Returns the number of pixels of a plane with this value.
pub fn pixels_of_value(plane: &PlaneRef<'_, u8>, value: u8) -> u64
    ensures { result ≡ occurrences value (row_major (table_of plane.now)) }
{
    histogram(plane)[usize::from(value)]
}

/// Returns the number of white pixels of a 10-bit plane, which have the value 940.
///
/// # Errors
///
/// Returns [`AllocError`] if memory cannot be allocated.
pub fn white_pixels(alloc: Global, plane: &PlaneRef<'_, u16>) -> Result<u64, AllocError>
    ensures { IfOk result (λ count. count ≡ occurrences 940 (row_major (table_of plane.now))) }
{
    let table = histogram_of_depth(alloc, plane, 10)?;
    Ok(table[940])
}

/// Returns the minimum and the maximum of the pixels.
pub fn range_of<T: Pixel>(plane: &PlaneRef<'_, T>) -> (T, T)
    ensures least { IsLeast T.form.value (row_major (table_of plane.now)) result.0 }
    ensures greatest { IsGreatest T.form.value (row_major (table_of plane.now)) result.1 }
{
    (minimum(plane), maximum(plane))
}

/// Returns the mean of the pixels of a plane, rounded down.
pub fn brightness<T: Pixel>(plane: &PlaneRef<'_, T>) -> u128
    ensures { let pixels = row_major (table_of plane.now) in
        result ≡ sum_of_values T.form.value pixels / length pixels }
{
    let parts = sum_and_count(plane);
    parts.sum / parts.count as u128
}

/// Returns the sums that SSIM requires for a block of two planes. The block lies inside both planes.
pub fn sums_of_block<T: Pixel>(
    a: &PlaneRef<'_, T>,
    b: &PlaneRef<'_, T>,
    x: usize,
    y: usize,
    width: usize,
    height: usize,
) -> PairSums
    requires first { IsInside a.now.geometry x y width height }
    requires second { IsInside b.now.geometry x y width height }
    ensures { ArePairSums T.form.value (row_major (rectangle x y width height (table_of a.now)))
        (row_major (rectangle x y width height (table_of b.now))) result }
{
    let first = a.visible_region(x, y, width, height);
    let second = b.visible_region(x, y, width, height);
    pair_sums(&first, &second)
}

//! Sums over two rows, in blocks whose sums fit narrow integers, so that the compiler vectorizes the loops.
ghost use Rattle.std.specs.Prelude.{◌≡◌, ◌*◌, ◌<◌, ◌≤◌, All, length};
ghost use Rattle.v_frame_statistics.specs.PairSums.{ArePairSums, PairSumsAtMost};

use crate::row_sums::{
    are_small, high_half, joined_halves, low_half, product_of, product_of_small,
};
use crate::rows::PairSums;
use v_frame::pixel::Pixel;

/// Returns the sums over two rows of the same length.
pub(crate) fn sums_of_two_rows<T: Pixel>(a: &[T], b: &[T]) -> PairSums
    requires { length b.now ≡ length a.now }
    ensures value { ArePairSums T.form.value a.now b.now result }
    ensures bound { PairSumsAtMost (4294967296 * length a.now) result }
{
    if T::BYTES == 2 && a.len() < 64 {
        return sums_of_two_short_rows(a, b);
    }
    let (mut first, mut second) = (0, 0);
    let (mut first_squares, mut second_squares, mut products) = (0, 0, 0);
    let blocks = a.len() / 4096;
    for block in 0..blocks {
        let start = 4096 * block;
        let here = sums_of_two_blocks(&a[start..start + 4096], &b[start..start + 4096]);
        first += here.first;
        second += here.second;
        first_squares += here.first_squares;
        second_squares += here.second_squares;
        products += here.products;
    }
    let start = 4096 * blocks;
    let rest = sums_of_two_blocks(&a[start..], &b[start..]);
    PairSums {
        first: first + rest.first,
        second: second + rest.second,
        first_squares: first_squares + rest.first_squares,
        second_squares: second_squares + rest.second_squares,
        products: products + rest.products,
    }
}

/// Returns the sums over two short rows. It checks no values first and uses 64-bit sums, because for short rows most of the
/// time is spent on adding the vector lanes at the end.
fn sums_of_two_short_rows<T: Pixel>(a: &[T], b: &[T]) -> PairSums
    requires same { length b.now ≡ length a.now }
    requires short { length a.now < 64 }
    ensures value { ArePairSums T.form.value a.now b.now result }
    ensures bound { PairSumsAtMost (4294967296 * length a.now) result }
{
    let (mut first, mut second): (u32, u32) = (0, 0);
    let (mut first_squares, mut second_squares, mut products): (u64, u64, u64) = (0, 0, 0);
    for x in 0..a.len() {
        let (p, q) = (a[x], b[x]);
        first += u32::from(p.into_u16());
        second += u32::from(q.into_u16());
        let (first_square, second_square) = (product_of(p, p), product_of(q, q));
        let product = product_of(p, q);
        first_squares += u64::from(first_square);
        second_squares += u64::from(second_square);
        products += u64::from(product);
    }
    PairSums {
        first: u128::from(first),
        second: u128::from(second),
        first_squares: u128::from(first_squares),
        second_squares: u128::from(second_squares),
        products: u128::from(products),
    }
}

/// Returns the sums over two blocks.
fn sums_of_two_blocks<T: Pixel>(a: &[T], b: &[T]) -> PairSums
    requires same { length b.now ≡ length a.now }
    requires short { length a.now ≤ 4096 }
    ensures value { ArePairSums T.form.value a.now b.now result }
    ensures bound { PairSumsAtMost (4294967296 * length a.now) result }
{
    if are_small(a) && are_small(b) {
        sums_of_two_small_blocks(a, b)
    } else {
        sums_of_two_wide_blocks(a, b)
    }
}

/// Returns the sums over two blocks of small values.
fn sums_of_two_small_blocks<T: Pixel>(a: &[T], b: &[T]) -> PairSums
    requires first { All (λ p. T.form.value p < 1024) a.now }
    requires second { All (λ p. T.form.value p < 1024) b.now }
    requires same { length b.now ≡ length a.now }
    requires short { length a.now ≤ 4096 }
    ensures value { ArePairSums T.form.value a.now b.now result }
    ensures bound { PairSumsAtMost (1046529 * length a.now) result }
{
    let (mut first, mut second): (u32, u32) = (0, 0);
    let (mut first_squares, mut second_squares, mut products): (u32, u32, u32) = (0, 0, 0);
    for x in 0..a.len() {
        let (p, q) = (a[x], b[x]);
        first += u32::from(p.into_u16());
        second += u32::from(q.into_u16());
        first_squares += product_of_small(p, p);
        second_squares += product_of_small(q, q);
        products += product_of_small(p, q);
    }
    PairSums {
        first: u128::from(first),
        second: u128::from(second),
        first_squares: u128::from(first_squares),
        second_squares: u128::from(second_squares),
        products: u128::from(products),
    }
}

/// Returns the sums over two blocks of any values. The low and the high halves of the products are summed separately, so that
/// 32 bits suffice for each sum.
fn sums_of_two_wide_blocks<T: Pixel>(a: &[T], b: &[T]) -> PairSums
    requires same { length b.now ≡ length a.now }
    requires short { length a.now ≤ 4096 }
    ensures value { ArePairSums T.form.value a.now b.now result }
    ensures bound { PairSumsAtMost (4294967296 * length a.now) result }
{
    let (mut first, mut second): (u32, u32) = (0, 0);
    let (mut first_low, mut second_low, mut low): (u32, u32, u32) = (0, 0, 0);
    let (mut first_high, mut second_high, mut high): (u32, u32, u32) = (0, 0, 0);
    for x in 0..a.len() {
        let (p, q) = (a[x], b[x]);
        first += u32::from(p.into_u16());
        second += u32::from(q.into_u16());
        let (first_square, second_square) = (product_of(p, p), product_of(q, q));
        let product = product_of(p, q);
        first_low += low_half(first_square);
        second_low += low_half(second_square);
        low += low_half(product);
        first_high += high_half(first_square);
        second_high += high_half(second_square);
        high += high_half(product);
    }
    PairSums {
        first: u128::from(first),
        second: u128::from(second),
        first_squares: joined_halves(first_low, first_high),
        second_squares: joined_halves(second_low, second_high),
        products: joined_halves(low, high),
    }
}

//! Sums over two rows, in blocks for which the compiler emits vector instructions.
ghost use Rattle.std.specs.Prelude.{◌≡◌, ℕ, ◌≤◌, length, take, sum_by, zip};
ghost use Rattle.std.specs.Int.{abs_diff};
ghost use Rattle.v_frame_raster.specs.PixelRows.{squared_error};

use std::simd::Simd;

/// The difference between two pixels that is summed over two rows.
pub trait Difference<T> {
    // The amount that two pixels at the same index add to the sum.
    ghost between: { T → T → ℕ };

    /// Returns the amount that the pixels `a` and `b` add to the sum.
    fn of_pixels(a: T, b: T) -> u32
        ensures { result ≡ between a b };

    /// Returns the amount that the first 8 pixels of each row add to the sum.
    fn of_eights(a: &[T], b: &[T]) -> u64
        requires first { 8 ≤ length a.now }
        requires second { 8 ≤ length b.now }
        ensures { result ≡ sum_by (λ p. between p.0 p.1) (zip (take 8 a.now) (take 8 b.now)) };

    /// Returns the amount that the first 16 pixels of each row add to the sum.
    fn of_sixteens(a: &[T], b: &[T]) -> u64
        requires first { 16 ≤ length a.now }
        requires second { 16 ≤ length b.now }
        ensures { result ≡ sum_by (λ p. between p.0 p.1) (zip (take 16 a.now) (take 16 b.now)) };

    /// Returns the amount that the first 32 pixels of each row add to the sum.
    fn of_blocks(a: &[T], b: &[T]) -> u64
        requires first { 32 ≤ length a.now }
        requires second { 32 ≤ length b.now }
        ensures { result ≡ sum_by (λ p. between p.0 p.1) (zip (take 32 a.now) (take 32 b.now)) };

    /// Returns the amount that the first 64 pixels of each row add to the sum.
    fn of_sixty_fours(a: &[T], b: &[T]) -> u64
        requires first { 64 ≤ length a.now }
        requires second { 64 ≤ length b.now }
        ensures { result ≡ sum_by (λ p. between p.0 p.1) (zip (take 64 a.now) (take 64 b.now)) };
}

/// The absolute difference of two pixels.
pub struct Absolute;

impl Difference<u8> for Absolute {
    ghost between = { abs_diff };

    #[inline(always)]
    fn of_pixels(a: u8, b: u8) -> u32 {
        u32::from(a.abs_diff(b))
    }

    #[inline(always)]
    fn of_eights(a: &[u8], b: &[u8]) -> u64 {
        absolute_of_bytes::<8>(a, b)
    }

    #[inline(always)]
    fn of_sixteens(a: &[u8], b: &[u8]) -> u64 {
        absolute_of_bytes::<16>(a, b)
    }

    #[inline(always)]
    fn of_blocks(a: &[u8], b: &[u8]) -> u64 {
        absolute_of_bytes::<32>(a, b)
    }

    #[inline(always)]
    fn of_sixty_fours(a: &[u8], b: &[u8]) -> u64 {
        absolute_of_bytes::<64>(a, b)
    }
}

impl Difference<u16> for Absolute {
    ghost between = { abs_diff };

    #[inline(always)]
    fn of_pixels(a: u16, b: u16) -> u32 {
        u32::from(a.abs_diff(b))
    }

    #[inline(always)]
    fn of_eights(a: &[u16], b: &[u16]) -> u64 {
        absolute_of_words::<8>(a, b)
    }

    #[inline(always)]
    fn of_sixteens(a: &[u16], b: &[u16]) -> u64 {
        absolute_of_words::<16>(a, b)
    }

    #[inline(always)]
    fn of_blocks(a: &[u16], b: &[u16]) -> u64 {
        absolute_of_words::<32>(a, b)
    }

    #[inline(always)]
    fn of_sixty_fours(a: &[u16], b: &[u16]) -> u64 {
        absolute_of_words::<64>(a, b)
    }
}

/// The squared difference of two pixels.
pub struct Squared;

impl Difference<u8> for Squared {
    ghost between = { squared_error };

    #[inline(always)]
    fn of_pixels(a: u8, b: u8) -> u32 {
        let difference = u32::from(a.abs_diff(b));
        difference * difference
    }

    #[inline(always)]
    fn of_eights(a: &[u8], b: &[u8]) -> u64 {
        squared_of_bytes::<8>(a, b)
    }

    #[inline(always)]
    fn of_sixteens(a: &[u8], b: &[u8]) -> u64 {
        squared_of_bytes::<16>(a, b)
    }

    #[inline(always)]
    fn of_blocks(a: &[u8], b: &[u8]) -> u64 {
        squared_of_bytes::<32>(a, b)
    }

    #[inline(always)]
    fn of_sixty_fours(a: &[u8], b: &[u8]) -> u64 {
        squared_of_bytes::<64>(a, b)
    }
}

impl Difference<u16> for Squared {
    ghost between = { squared_error };

    #[inline(always)]
    fn of_pixels(a: u16, b: u16) -> u32 {
        let difference = u32::from(a.abs_diff(b));
        difference * difference
    }

    #[inline(always)]
    fn of_eights(a: &[u16], b: &[u16]) -> u64 {
        squared_of_words::<8>(a, b)
    }

    #[inline(always)]
    fn of_sixteens(a: &[u16], b: &[u16]) -> u64 {
        squared_of_words::<16>(a, b)
    }

    #[inline(always)]
    fn of_blocks(a: &[u16], b: &[u16]) -> u64 {
        squared_of_words::<32>(a, b)
    }

    #[inline(always)]
    fn of_sixty_fours(a: &[u16], b: &[u16]) -> u64 {
        squared_of_words::<64>(a, b)
    }
}

/// Returns the sum of the absolute differences of the first `N` one-byte pixels.
#[inline(always)]
fn absolute_of_bytes<const N: usize>(a: &[u8], b: &[u8]) -> u64
    requires lanes { N ≤ 64 }
    requires first { N ≤ length a.now }
    requires second { N ≤ length b.now }
    ensures { result ≡ sum_by (λ p. abs_diff p.0 p.1) (zip (take N a.now) (take N b.now)) }
{
    let differences = Simd::<u8, N>::from_slice(a).abs_diff(Simd::<u8, N>::from_slice(b));
    u64::from(differences.cast::<u32>().strict_reduce_sum())
}

/// Returns the sum of the absolute differences of the first `N` two-byte pixels.
#[inline(always)]
fn absolute_of_words<const N: usize>(a: &[u16], b: &[u16]) -> u64
    requires lanes { N ≤ 64 }
    requires first { N ≤ length a.now }
    requires second { N ≤ length b.now }
    ensures { result ≡ sum_by (λ p. abs_diff p.0 p.1) (zip (take N a.now) (take N b.now)) }
{
    let differences = Simd::<u16, N>::from_slice(a).abs_diff(Simd::<u16, N>::from_slice(b));
    u64::from(differences.cast::<u32>().strict_reduce_sum())
}

/// Returns the sum of the squared differences of the first `N` one-byte pixels.
#[inline(always)]
fn squared_of_bytes<const N: usize>(a: &[u8], b: &[u8]) -> u64
    requires lanes { N ≤ 64 }
    requires first { N ≤ length a.now }
    requires second { N ≤ length b.now }
    ensures { result ≡ sum_by (λ p. squared_error p.0 p.1) (zip (take N a.now) (take N b.now)) }
{
    let differences = Simd::<u8, N>::from_slice(a)
        .abs_diff(Simd::<u8, N>::from_slice(b))
        .cast::<u32>();
    u64::from((differences * differences).strict_reduce_sum())
}

/// Returns the sum of the squared differences of the first `N` two-byte pixels.
#[inline(always)]
fn squared_of_words<const N: usize>(a: &[u16], b: &[u16]) -> u64
    requires lanes { N ≤ 64 }
    requires first { N ≤ length a.now }
    requires second { N ≤ length b.now }
    ensures { result ≡ sum_by (λ p. squared_error p.0 p.1) (zip (take N a.now) (take N b.now)) }
{
    let differences = Simd::<u16, N>::from_slice(a)
        .abs_diff(Simd::<u16, N>::from_slice(b))
        .cast::<u32>();
    (differences * differences)
        .cast::<u64>()
        .strict_reduce_sum()
}

/// Returns the sum over two rows of equal length. Rows as wide as common blocks are summed in one expression, other rows by
/// pieces.
#[inline(always)]
pub fn sum_over_rows<T: Copy, D: Difference<T>>(a: &[T], b: &[T]) -> u128
    requires { length a.now ≡ length b.now }
    ensures { result ≡ sum_by (λ p. D.between p.0 p.1) (zip a.now b.now) }
{
    match a.len() {
        8 => u128::from(D::of_eights(a, b)),
        16 => u128::from(D::of_sixteens(a, b)),
        32 => u128::from(D::of_blocks(a, b)),
        64 => u128::from(D::of_sixty_fours(a, b)),
        _ => sum_by_pieces::<T, D>(a, b),
    }
}

/// Returns the sum over two rows of equal length, for any length.
fn sum_by_pieces<T: Copy, D: Difference<T>>(a: &[T], b: &[T]) -> u128
    requires { length a.now ≡ length b.now }
    ensures { result ≡ sum_by (λ p. D.between p.0 p.1) (zip a.now b.now) }
{
    let mut sum: u128 = 0;
    let blocks = a.len() / 32;
    for block in 0..blocks {
        sum += u128::from(D::of_blocks(&a[32 * block..], &b[32 * block..]));
    }
    // The rest of the rows, or the whole rows if they are narrow.
    let eights = a.len() / 8;
    for eight in 4 * blocks..eights {
        sum += u128::from(D::of_eights(&a[8 * eight..], &b[8 * eight..]));
    }
    for i in 8 * eights..a.len() {
        sum += u128::from(D::of_pixels(a[i], b[i]));
    }
    sum
}

//! Pixels: the values that a plane holds.
ghost use Rattle.std.specs.Prelude.{◌≡◌, ℕ, ◌+◌, ◌/◌, ◌^◌, ◌<◌, ◌≤◌, ◌*◌, ◌↔◌, length, nat_eq, replicate, IsSome, IfSome, refl};
ghost use Rattle.std.specs.Ordering.{nat_cmp};
ghost use Rattle.std.proofs.Common.{lit<};
ghost use Rattle.v_frame_raster.specs.PixelRows.{absolute_differences, squared_errors, halved};
ghost use Rattle.v_frame_raster.specs.Pixel.{PixelForm, one_byte, two_bytes, byte_of, value_of_bytes, bytes_of_pixels, pixels_of_bytes};

use crate::halving::{halve_bytes, halve_words};
use crate::row_lanes::{absolute_in_lanes, is_of_larger_block, squared_in_lanes};
use crate::row_sums::{Absolute, Squared, sum_over_rows};
use std::fmt::{Binary, Debug, Display, LowerHex, Octal, UpperHex};
use std::hash::Hash;
use std::simd::{u8x16, u16x8};

mod sealed {
    /// Prevents types outside this crate from implementing `Pixel`.
    pub trait Sealed {}

    impl Sealed for u8 {}

    impl Sealed for u16 {}
}

/// A sample of one plane: `u8` for a bit depth of 8, `u16` for larger bit depths.
///
/// Ports the trait `Pixel` of `v_frame` 0.7.0. In Rattle, the functions and constants of the trait replace the conversion
/// traits that a pixel of `v_frame` 0.7.0 implements, casts of bytes, and `size_of`.
pub trait Pixel: Copy
    + Clone
    + Eq
    + Ord
    + Hash
    + Default
    + Debug
    + Display
    + Octal
    + LowerHex
    + UpperHex
    + Binary
    + sealed::Sealed
    + 'static {
    // The byte encoding of a pixel: the number of bytes, the value of a pixel, and the pixel with a given value.
    ghost form: { PixelForm Self };

    ghost BYTES: { ℕ };

    ghost ZERO: { Self };

    /// The size of a pixel in bytes.
    const BYTES: usize;

    /// The pixel with the value 0.
    const ZERO: Self;

    /// Returns the value of the pixel.
    fn into_u16(self) -> u16
        ensures value { result ≡ form.value self }
        ensures fits { result < 256 ^ BYTES };

    /// Returns the value of the pixel, or `None` if it is above 255.
    fn try_into_u8(self) -> Option<u8>
        ensures variant { IsSome result ↔ (form.value self < 256) }
        ensures value { IfSome result (λ v. v ≡ form.value self) };

    /// Returns the pixel with the value `v`.
    fn from_u8(v: u8) -> Self
        ensures { form.value result ≡ v };

    /// Returns the pixel with the value `v`, or `None` if `v` does not fit into the type: above 255 for `u8`.
    fn try_from_u16(v: u16) -> Option<Self>
        ensures variant { IsSome result ↔ (v < 256 ^ BYTES) }
        ensures value { IfSome result (λ p. form.value p ≡ v) };

    /// Returns the pixel with the value `v`, which must fit into the type: any value for `u16`, at most 255 for `u8`.
    fn from_value(v: u16) -> Self
        requires { v < 256 ^ BYTES }
        ensures { result ≡ form.pixel_of v };

    /// Returns the pixel whose bytes are `src`, in little-endian order. The length of `src` must be [`BYTES`](Pixel::BYTES).
    fn from_le(src: &[u8]) -> Self
        requires { length src.now ≡ BYTES }
        ensures { form.value result ≡ value_of_bytes src.now };

    /// Returns byte `i` of the pixel in little-endian order. The index `i` must be less than [`BYTES`](Pixel::BYTES).
    fn le_byte(self, i: usize) -> u8
        requires { i < BYTES }
        ensures { result ≡ byte_of (form.value self) i };

    /// Decodes the bytes `src` into the row `dst`. Pixel `i` of `dst` becomes the pixel whose bytes begin at index `i * BYTES`
    /// of `src`, in little-endian order. The length of `src` must be [`BYTES`](Pixel::BYTES) times the length of `dst`.
    fn decode_row(dst: &mut [Self], src: &[u8])
        requires { length src.now ≡ BYTES * length dst.old }
        ensures { dst.new ≡ pixels_of_bytes form (length dst.old) src.now };

    /// Returns the sum of the absolute differences of two rows of equal length. The sum is exact.
    fn sum_of_absolute_differences(a: &[Self], b: &[Self]) -> u128
        requires { length a.now ≡ length b.now }
        ensures value { result ≡ absolute_differences form.value a.now b.now }
        ensures fits { result ≤ 2 ^ 16 * length a.now };

    /// Returns the sum of the squared differences of two rows of equal length. The sum is exact.
    fn sum_of_squared_errors(a: &[Self], b: &[Self]) -> u128
        requires { length a.now ≡ length b.now }
        ensures value { result ≡ squared_errors form.value a.now b.now }
        ensures fits { result ≤ 2 ^ 32 * length a.now };

    /// Averages squares of two by two pixels. Pixel `i` of `dst` becomes the mean of the pixels `2 * i` and `2 * i + 1` of
    /// `top` and of `bottom`, rounded to the nearest value, halves up. `top` and `bottom` must each be twice as long as `dst`.
    fn halve_rows(dst: &mut [Self], top: &[Self], bottom: &[Self])
        requires top { length top.now ≡ 2 * length dst.old }
        requires bottom { length bottom.now ≡ 2 * length dst.old }
        ensures { dst.new ≡ halved form top.now bottom.now };

    // Pixels with equal values are equal.
    ghost one_value: { (p q : Self) → form.value p ≡ form.value q → p ≡ q };

    // The pixel with the value of `p` is `p`.
    ghost pixel_of_value: { (p : Self) → form.pixel_of (form.value p) ≡ p };

    // A number that fits into the bytes of a pixel is the value of some pixel.
    ghost value_of_pixel: { (v : ℕ) → v < 256 ^ form.size → form.value (form.pixel_of v) ≡ v };

    // A pixel has one byte or two bytes, and the constant `BYTES` is the number of bytes.
    ghost byte_or_two: { (0 < form.size) × (form.size < 3) };

    ghost bytes_of_form: { BYTES ≡ form.size };

    // The value of `ZERO` is 0.
    ghost zero_value: { form.value ZERO ≡ 0 };

    // The default pixel is `ZERO`.
    ghost default_is_zero: { (p : Self) → Self.is_default p → p ≡ ZERO };

    // Cloning never fails, and the clone equals the pixel.
    ghost clones: { (p : Self) → Self.is_infallible p };

    ghost clone_is_same: { (p q : Self) → Self.is_clone p q → q ≡ p };

    // Pixels compare as their values do.
    ghost eq_by_value: { (p q : Self) → Self.eq p q ≡ nat_eq (form.value p) (form.value q) };

    ghost cmp_by_value: { (p q : Self) → Self.cmp p q ≡ nat_cmp (form.value p) (form.value q) };
}

impl Pixel for u8 {
    ghost form = { one_byte };

    ghost BYTES = { 1 };

    ghost ZERO = { 0 };

    const BYTES: usize = 1;

    const ZERO: u8 = 0;

    ghost one_value = { λ p q e. e };

    ghost pixel_of_value = { λ p. refl };

    ghost value_of_pixel = { λ v h. refl };

    ghost byte_or_two = { (lit< tt, lit< tt) };

    ghost bytes_of_form = { refl };

    ghost zero_value = { refl };

    ghost default_is_zero = { λ p h. h };

    ghost clones = { λ p. tt };

    ghost clone_is_same = { λ p q h. h };

    ghost eq_by_value = { λ p q. refl };

    ghost cmp_by_value = { λ p q. refl };

    fn into_u16(self) -> u16 {
        u16::from(self)
    }

    fn try_into_u8(self) -> Option<u8> {
        Some(self)
    }

    fn from_u8(v: u8) -> u8 {
        v
    }

    fn try_from_u16(v: u16) -> Option<u8> {
        u8::try_from(v).ok()
    }

    #[inline(always)]
    fn from_value(v: u16) -> u8 {
        v as u8
    }

    fn from_le(src: &[u8]) -> u8 {
        src[0]
    }

    fn le_byte(self, _i: usize) -> u8 {
        self
    }

    fn decode_row(dst: &mut [u8], src: &[u8]) {
        dst.copy_from_slice(src);
    }

    #[inline(always)]
    fn sum_of_absolute_differences(a: &[u8], b: &[u8]) -> u128 {
        sum_over_rows::<u8, Absolute>(a, b)
    }

    #[inline(always)]
    fn sum_of_squared_errors(a: &[u8], b: &[u8]) -> u128 {
        sum_over_rows::<u8, Squared>(a, b)
    }

    fn halve_rows(dst: &mut [u8], top: &[u8], bottom: &[u8]) {
        halve_bytes(dst, top, bottom);
    }
}

impl Pixel for u16 {
    ghost form = { two_bytes };

    ghost BYTES = { 2 };

    ghost ZERO = { 0 };

    const BYTES: usize = 2;

    const ZERO: u16 = 0;

    ghost one_value = { λ p q e. e };

    ghost pixel_of_value = { λ p. refl };

    ghost value_of_pixel = { λ v h. refl };

    ghost byte_or_two = { (lit< tt, lit< tt) };

    ghost bytes_of_form = { refl };

    ghost zero_value = { refl };

    ghost default_is_zero = { λ p h. h };

    ghost clones = { λ p. tt };

    ghost clone_is_same = { λ p q h. h };

    ghost eq_by_value = { λ p q. refl };

    ghost cmp_by_value = { λ p q. refl };

    fn into_u16(self) -> u16 {
        self
    }

    fn try_into_u8(self) -> Option<u8> {
        u8::try_from(self).ok()
    }

    fn from_u8(v: u8) -> u16 {
        u16::from(v)
    }

    fn try_from_u16(v: u16) -> Option<u16> {
        Some(v)
    }

    #[inline(always)]
    fn from_value(v: u16) -> u16 {
        v
    }

    fn from_le(src: &[u8]) -> u16 {
        u16::from_le_bytes([src[0], src[1]])
    }

    fn le_byte(self, i: usize) -> u8 {
        self.to_le_bytes()[i]
    }

    fn decode_row(dst: &mut [u16], src: &[u8]) {
        let blocks = dst.len() / 16;
        for block in 0..blocks {
            decode_sixteen(
                &mut dst[16 * block..16 * block + 16],
                &src[32 * block..32 * block + 32],
            );
        }
        // The rest of the row is shorter than a block.
        for i in 16 * blocks..dst.len() {
            dst[i] = u16::from_le_bytes([src[2 * i], src[2 * i + 1]]);
        }
    }

    #[inline(always)]
    fn sum_of_absolute_differences(a: &[u16], b: &[u16]) -> u128 {
        if is_of_larger_block(a.len()) {
            absolute_in_lanes(a, b)
        } else {
            sum_over_rows::<u16, Absolute>(a, b)
        }
    }

    #[inline(always)]
    fn sum_of_squared_errors(a: &[u16], b: &[u16]) -> u128 {
        if is_of_larger_block(a.len()) {
            squared_in_lanes(a, b)
        } else {
            sum_over_rows::<u16, Squared>(a, b)
        }
    }

    fn halve_rows(dst: &mut [u16], top: &[u16], bottom: &[u16]) {
        halve_words(dst, top, bottom);
    }
}

/// Sets every entry of `row` to `pixel`. The slice may be a row or any other slice.
///
/// A proof that is generic over the pixel type knows only that `fill` writes clones, and not that the clone of a pixel is equal
/// to the pixel. Not part of `v_frame` 0.7.0.
pub fn fill_row<T: Copy>(row: &mut [T], pixel: T)
    ensures { row.new ≡ replicate (length row.old) pixel }
{
    for x in 0..row.len() {
        row[x] = pixel;
    }
}

/// Encodes the pixels of `row` into `bytes`, one after the other, each in little-endian order. The slice may be a row or any
/// other slice.
///
/// The length of `bytes` must be [`BYTES`](Pixel::BYTES) times the length of `row`.
pub fn encode_row<T: Pixel>(bytes: &mut [u8], row: &[T])
    requires { length bytes.old ≡ T.BYTES * length row.now }
    ensures { bytes.new ≡ bytes_of_pixels T.form row.now }
{
    for i in 0..row.len() {
        let start = T::BYTES * i;
        bytes[start] = row[i].le_byte(0);
        if T::BYTES == 2 {
            bytes[start + 1] = row[i].le_byte(1);
        }
    }
}

/// Decodes 16 pixels of two bytes.
///
/// It uses two stores of eight pixels, the lower first. The compiler splits a store of sixteen pixels and stores the upper half
/// first, which is slower if rows begin in the middle of a cache line.
#[inline(always)]
fn decode_sixteen(dst: &mut [u16], src: &[u8])
    requires pixels { length dst.old ≡ 16 }
    requires bytes { length src.now ≡ 32 }
    ensures { dst.new ≡ pixels_of_bytes two_bytes 16 src.now }
{
    eight_pixels(src).copy_to_slice(dst);
    eight_pixels(&src[16..]).copy_to_slice(&mut dst[8..]);
}

/// Returns the 8 pixels that the first 16 bytes encode.
#[inline(always)]
fn eight_pixels(src: &[u8]) -> u16x8
    requires { 16 ≤ length src.now }
    ensures { result ≡ pixels_of_bytes two_bytes 8 src.now }
{
    u16x8::from_le_bytes(u8x16::from_slice(src))
}

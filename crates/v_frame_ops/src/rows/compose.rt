//! Rows of a buffer combined with another picture: blended evenly, blended by a mask, or replaced by an amplified difference.
ghost use Rattle.std.specs.Prelude.{◌≡◌, ◌+◌, ◌-◌, ◌*◌, ◌/◌, ◌^◌, ◌<◌, ◌≤◌, ℕ, length, min, slice_get, Some};
ghost use Rattle.std.specs.Int.{abs_diff};
ghost use Rattle.v_frame.specs.Prelude.{height_of, pixel_at, strided_rows, width_of, KeepsRest, RowsFit};
ghost use Rattle.v_frame_ops.specs.Change.{combined};
ghost use Rattle.v_frame_ops.specs.Compose.{blended, difference_of, BlendsByMask};

use crate::rows::combine_pixels;
use v_frame::laws::depths_fit;
use v_frame::pixel::Pixel;
use v_frame::plane::RowsRef;

/// Blends `source` over the rows in `buffer` with one weight. `source` has the same size as the rows.
///
/// `weight` is at most 256. The source contributes `weight / 256` of each pixel and the rows the rest. A pixel of value `p`
/// becomes `(p * (256 - weight) + q * weight + 128) / 256`, where `q` is the value of the source pixel and the division rounds
/// down. A weight of 0 leaves the rows unchanged, and a weight of 256 copies the source.
pub fn blend<T: Pixel>(
    source: &RowsRef<'_, T>,
    buffer: &mut [T],
    width: usize,
    height: usize,
    stride: usize,
    weight: u16,
)
    requires fit { RowsFit width height stride (length buffer.old) }
    requires wide { width_of source.now ≡ width }
    requires high { height_of source.now ≡ height }
    requires weight { weight ≤ 256 }
    ensures table { strided_rows width height stride buffer.new
        ≡ combined (combined (blended T.form 256 weight)) (strided_rows width height stride buffer.old)
        source.now }
    ensures rest { KeepsRest width height stride buffer.old buffer.new }
{
    combine_pixels(
        buffer,
        width,
        height,
        stride,
        source,
        |p: T, q: T|
            requires { weight ≤ 256 }
            ensures { result ≡ blended T.form 256 weight p q }
        { blend_pixel(p, q, weight) },
    );
}

/// Blends `source` over the rows in `buffer`, each pixel with its own weight from `mask`. `source` and `mask` have the same
/// size as the rows.
///
/// A pixel of value `p` becomes `(p * (255 - m) + q * m) / 255`, rounded to the nearest integer, where `q` is the value of the
/// source pixel and `m` the value of the mask pixel. A mask value of 0 leaves the pixel unchanged, and a mask value of 255
/// copies the source pixel.
#[tactic(auto, using(v_frame_raster::proofs::tables::StridedWrites::row_ends))]
pub fn blend_with_mask<T: Pixel>(
    source: &RowsRef<'_, T>,
    mask: &RowsRef<'_, u8>,
    buffer: &mut [T],
    width: usize,
    height: usize,
    stride: usize,
)
    requires fit { RowsFit width height stride (length buffer.old) }
    requires wide { width_of source.now ≡ width }
    requires high { height_of source.now ≡ height }
    requires mask_wide { width_of mask.now ≡ width }
    requires mask_high { height_of mask.now ≡ height }
    ensures pixels { (x y : ℕ) (p q : T) (weight : ℕ)
        → pixel_at (strided_rows width height stride buffer.old) x y ≡ Some p
        → pixel_at source.now x y ≡ Some q → pixel_at mask.now x y ≡ Some weight
        → pixel_at (strided_rows width height stride buffer.new) x y
        ≡ Some (blended T.form 255 weight p q) }
    ensures rest { KeepsRest width height stride buffer.old buffer.new }
{
    for y in 0..height {
        let start = stride * y;
        blend_row_with_mask(
            &mut buffer[start..start + width],
            source.visible_row(y),
            mask.visible_row(y),
        );
    }
}

/// Replaces each pixel of the rows in `buffer` by its absolute difference from the pixel of `other` in the same column and row,
/// multiplied by `gain` and clipped to the largest value of the bit depth.
///
/// A pixel of value `p` becomes `min(|p - q| * gain, 2^depth - 1)`, where `q` is the value of the pixel of `other`. With a gain
/// of 1 the result equals that of FFmpeg's filter `blend=difference`. `other` has the same size as the rows. `depth` is at most
/// 8 for `u8` and at most 16 for `u16`.
pub fn difference<T: Pixel>(
    other: &RowsRef<'_, T>,
    buffer: &mut [T],
    width: usize,
    height: usize,
    stride: usize,
    gain: u16,
    depth: u8,
)
    requires fit { RowsFit width height stride (length buffer.old) }
    requires wide { width_of other.now ≡ width }
    requires high { height_of other.now ≡ height }
    requires depth { depth ≤ 8 * T.BYTES }
    ensures table { strided_rows width height stride buffer.new
        ≡ combined (combined (difference_of T.form gain depth)) (strided_rows width height stride buffer.old)
        other.now }
    ensures rest { KeepsRest width height stride buffer.old buffer.new }
{
    let largest = largest_value::<T>(depth);
    combine_pixels(
        buffer,
        width,
        height,
        stride,
        other,
        |p: T, q: T|
            requires { largest < 256 ^ T.BYTES }
            ensures { result ≡ T.form.pixel_of (min (abs_diff (T.form.value p) (T.form.value q) * gain) largest) }
        { pixel_difference(p, q, gain, largest) },
    );
}

/// Blends `source` over `row`, each pixel with its weight from `mask`. All three have the same length.
fn blend_row_with_mask<T: Pixel>(row: &mut [T], source: &[T], mask: &[u8])
    requires wide { length source.now ≡ length row.old }
    requires mask { length mask.now ≡ length row.old }
    ensures { BlendsByMask T.form row.old source.now mask.now row.new }
{
    for x in 0..row.len() {
        row[x] = blend_pixel_by_mask(row[x], source[x], mask[x]);
    }
}

/// Returns the weighted mean of two pixels, in which `q` has the weight `weight / 256`.
#[inline(always)]
pub(crate) fn blend_pixel<T: Pixel>(p: T, q: T, weight: u16) -> T
    requires { weight ≤ 256 }
    ensures { result ≡ blended T.form 256 weight p q }
{
    let (p, q) = (p.into_u16(), q.into_u16());
    // A weighted sum of bytes fits 16 bits, so a vector register holds twice as many sums as with 32 bits.
    let high = weighted_sum((p / 256) as u8, (q / 256) as u8, weight);
    let low = weighted_sum((p % 256) as u8, (q % 256) as u8, weight);
    T::from_value(high + (low + 128) / 256)
}

/// Returns 256 times the weighted mean of two bytes, in which `q` has the weight `weight / 256`.
#[inline(always)]
fn weighted_sum(p: u8, q: u8, weight: u16) -> u16
    requires { weight ≤ 256 }
    ensures value { result ≡ p * (256 - weight) + q * weight }
    ensures fits { result ≤ 255 * 256 }
{
    u16::from(p) * (256 - weight) + u16::from(q) * weight
}

/// Returns the weighted mean of two pixels, in which `q` has the weight `weight / 255`.
#[inline(always)]
pub(crate) fn blend_pixel_by_mask<T: Pixel>(p: T, q: T, weight: u8) -> T
    ensures { result ≡ blended T.form 255 weight p q }
{
    let (p, q, weight) = (p.into_u16(), q.into_u16(), u16::from(weight));
    if T::BYTES == 1 {
        return T::from_value((p * (255 - weight) + q * weight + 127) / 255);
    }
    let sum = u32::from(p) * u32::from(255 - weight) + u32::from(q) * u32::from(weight);
    T::from_value(quotient_by_255(sum + 127) as u16)
}

/// Returns `number / 255` for a number below 65,535 * 256. It uses shifts, because the compiler would turn the division into a
/// wide multiplication.
#[inline(always)]
fn quotient_by_255(number: u32) -> u32
    requires { number < 65535 * 256 }
    ensures { result ≡ number / 255 }
{
    let next = number + 1;
    (next + (next + next / 256) / 256) / 256
}

/// Returns the largest value of a bit depth.
pub(crate) fn largest_value<T: Pixel>(depth: u8) -> u16
    requires { depth ≤ 8 * T.BYTES }
    ensures value { result ≡ 2 ^ depth - 1 }
    ensures fits { result < 256 ^ T.BYTES }
{
    depths_fit::<T>();
    ((1u32 << depth) - 1) as u16
}

/// Returns the absolute difference of two pixels, multiplied by `gain` and clipped to `largest`.
#[inline(always)]
pub(crate) fn pixel_difference<T: Pixel>(p: T, q: T, gain: u16, largest: u16) -> T
    requires { largest < 256 ^ T.BYTES }
    ensures { result ≡ T.form.pixel_of (min (abs_diff (T.form.value p) (T.form.value q) * gain) largest) }
{
    let apart = p.into_u16().abs_diff(q.into_u16());
    if T::BYTES == 1 {
        // For bytes a gain of 255 has the same effect as any larger gain, and the product fits 16 bits.
        return T::from_value((apart * gain.min(255)).min(largest));
    }
    T::from_value((u32::from(apart) * u32::from(gain)).min(u32::from(largest)) as u16)
}

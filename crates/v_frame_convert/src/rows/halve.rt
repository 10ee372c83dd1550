//! Pictures in half their size, with odd sizes rounded up.
ghost use Rattle.std.specs.Prelude.{◌≡◌, ◌+◌, ◌*◌, ◌/◌, ◌^◌, ◌<◌, ◌≤◌, ℕ, Some, length, slice_get};
ghost use Rattle.v_frame.specs.Prelude.{height_of, strided_rows, width_of, KeepsRest, RowsFit};
ghost use Rattle.v_frame_convert.specs.Scale.{nearest_value, scaled, SizesFit};
ghost use Rattle.v_frame_convert.specs.ScaledRows.{mean_in_two_rows};
ghost use Rattle.v_frame_convert.specs.declared.scale.Scale.TheVariants.{Half, Same};

use crate::byte_pairs::{halve_blocks, pairs_in_blocks};
use v_frame::pixel::Pixel;
use v_frame::plane::RowsRef;

/// Halves the width and the height of `source` into the rows in `buffer`, with odd sizes rounded up. Each pixel is the mean of
/// a block of 2 by 2 source pixels, rounded to the nearest integer, halves up. If the width is odd, the last column counts
/// twice, and if the height is odd, the last row counts twice.
///
/// If all samples fit the bit depth, [`resample`](super::resample) with `Half` in both directions and no change of depth writes
/// the same pixels, but is slower.
#[tactic(auto, using(v_frame_raster::proofs::tables::StridedWrites::row_ends))]
pub fn downscale_to_edge<T: Pixel>(
    source: &RowsRef<'_, T>,
    buffer: &mut [T],
    width: usize,
    height: usize,
    stride: usize,
)
    requires fit { RowsFit width height stride (length buffer.old) }
    requires wide { width ≡ (width_of source.now + 1) / 2 }
    requires high { height ≡ (height_of source.now + 1) / 2 }
    ensures table { strided_rows width height stride buffer.new
        ≡ scaled T.form T.form.pixel_of Half Half width height source.now }
    ensures rest { KeepsRest width height stride buffer.old buffer.new }
{
    let last = source.height() - 1;
    for y in 0..height {
        let top = source.visible_row(2 * y);
        let bottom = source.visible_row((2 * y + 1).min(last));
        let start = stride * y;
        halve_to_edge(top, bottom, &mut buffer[start..start + width]);
    }
}

/// Halves the width of `source` into the rows in `buffer`, with an odd width rounded up. Each pixel is the mean of two adjacent
/// source pixels, rounded to the nearest integer, halves up. If the width is odd, the last column is copied. The height stays
/// the same.
///
/// If all samples fit the bit depth, [`resample`](super::resample) with `Half` across, `Same` down and no change of depth
/// writes the same pixels, but is slower.
#[tactic(auto, using(v_frame_raster::proofs::tables::StridedWrites::row_ends))]
pub fn halve_columns<T: Pixel>(
    source: &RowsRef<'_, T>,
    buffer: &mut [T],
    width: usize,
    height: usize,
    stride: usize,
)
    requires fit { RowsFit width height stride (length buffer.old) }
    requires wide { width ≡ (width_of source.now + 1) / 2 }
    requires high { height ≡ height_of source.now }
    ensures table { strided_rows width height stride buffer.new
        ≡ scaled T.form T.form.pixel_of Half Same width height source.now }
    ensures rest { KeepsRest width height stride buffer.old buffer.new }
{
    for y in 0..height {
        let start = stride * y;
        halve_row_to_edge(source.visible_row(y), &mut buffer[start..start + width]);
    }
}

/// Halves two rows of the same length into one row, with an odd length rounded up.
fn halve_to_edge<T: Pixel>(top: &[T], bottom: &[T], row: &mut [T])
    requires top { length row.old ≡ (length top.now + 1) / 2 }
    requires bottom { length bottom.now ≡ length top.now }
    ensures { (x : ℕ) → x < length row.new → slice_get row.new x
        ≡ Some (T.form.pixel_of (mean_in_two_rows T.form Half top.now bottom.now x)) }
{
    let pairs = top.len() / 2;
    let (upper, upper_last) = top.split_at(2 * pairs);
    let (lower, lower_last) = bottom.split_at(2 * pairs);
    let (front, last) = row.split_at_mut(pairs);
    T::halve_rows(front, upper, lower);
    if last.len() == 1 {
        last[0] = mean_of_two(upper_last[0], lower_last[0]);
    }
}

/// Halves the width of one row, with an odd width rounded up. Rows of bytes are halved in blocks.
fn halve_row_to_edge<T: Pixel>(source: &[T], row: &mut [T])
    requires { length row.old ≡ (length source.now + 1) / 2 }
    ensures { (x : ℕ) → x < length row.new → slice_get row.new x
        ≡ Some (T.form.pixel_of (mean_in_two_rows T.form Half source.now source.now x)) }
{
    let whole = pairs_in_blocks::<T>(source.len() / 2);
    let (blocks, rest) = source.split_at(2 * whole);
    let (front, back) = row.split_at_mut(whole);
    halve_blocks(blocks, front);
    halve_pairs(rest, back);
}

/// Halves the width of one row, pair by pair.
fn halve_pairs<T: Pixel>(source: &[T], row: &mut [T])
    requires { length row.old ≡ (length source.now + 1) / 2 }
    ensures { (x : ℕ) → x < length row.new → slice_get row.new x
        ≡ Some (T.form.pixel_of (mean_in_two_rows T.form Half source.now source.now x)) }
{
    let pairs = source.len() / 2;
    for x in 0..pairs {
        row[x] = mean_of_two(source[2 * x], source[2 * x + 1]);
    }
    // The last column of an odd width has no second pixel.
    for x in pairs..row.len() {
        row[x] = mean_of_two(source[2 * x], source[2 * x]);
    }
}

/// Returns the mean of two pixels, rounded to the nearest integer, halves up.
fn mean_of_two<T: Pixel>(a: T, b: T) -> T
    ensures { result ≡ T.form.pixel_of ((T.form.value a + T.form.value b + 1) / 2) }
{
    let sum = u32::from(a.into_u16()) + u32::from(b.into_u16());
    T::from_value(((sum + 1) / 2) as u16)
}

//! Pictures enlarged by integer ratios, as chroma planes are when the chroma format changes.
ghost use Rattle.std.specs.Prelude.{◌≡◌, ◌+◌, ◌-◌, ◌*◌, ◌/◌, ◌<◌, ◌≤◌, ℕ, length, slice_get};
ghost use Rattle.v_frame.specs.Prelude.{height_of, pixel_at, strided_rows, width_of, KeepsRest, RowsFit};
ghost use Rattle.v_frame_convert.specs.Chroma.{upscaled, IsSubsampledSize};

use v_frame::plane::RowsRef;

/// Enlarges `source` into the rows in `buffer` by repeating pixels (nearest neighbor): each source pixel is repeated `ratio_x`
/// times in its row, and each row `ratio_y` times. The pixel at column `x` of row `y` is the source pixel at column
/// `x / ratio_x` of row `y / ratio_y`.
///
/// The size of `source` is the size of the rows divided by the ratios, rounded up, as
/// [`subsampled_size`](crate::subsampled_size) computes it. If a ratio does not divide the size of the rows, the last column or
/// row is repeated fewer times. Ratios of 1, 2 and 4 are the fastest.
#[tactic(auto, using(v_frame_raster::proofs::tables::StridedWrites::row_ends))]
pub fn upscale<T: Copy>(
    source: &RowsRef<'_, T>,
    buffer: &mut [T],
    width: usize,
    height: usize,
    stride: usize,
    ratio_x: usize,
    ratio_y: usize,
)
    requires fit { RowsFit width height stride (length buffer.old) }
    requires wide { IsSubsampledSize width ratio_x (width_of source.now) }
    requires high { IsSubsampledSize height ratio_y (height_of source.now) }
    ensures table { strided_rows width height stride buffer.new
        ≡ upscaled ratio_x ratio_y width height source.now }
    ensures pixels { (x y : ℕ) → x < width → y < height
        → pixel_at (strided_rows width height stride buffer.new) x y
        ≡ pixel_at source.now (x / ratio_x) (y / ratio_y) }
    ensures rest { KeepsRest width height stride buffer.old buffer.new }
{
    for y in 0..height {
        let start = stride * y;
        repeat_across(
            source.visible_row(quotient(y, ratio_y)),
            &mut buffer[start..start + width],
            ratio_x,
        );
    }
}

/// Returns `number / divisor`. If the compiler knows the divisor, it replaces the division by cheaper instructions.
#[inline(always)]
fn quotient(number: usize, divisor: usize) -> usize
    requires { 0 < divisor }
    ensures { result ≡ number / divisor }
{
    match divisor {
        1 => number,
        2 => number / 2,
        4 => number / 4,
        _ => number / divisor,
    }
}

/// Writes each pixel of `source` `ratio` times into `row`.
fn repeat_across<T: Copy>(source: &[T], row: &mut [T], ratio: usize)
    requires { IsSubsampledSize (length row.old) ratio (length source.now) }
    ensures { (k : ℕ) → k < length row.new
        → slice_get row.new k ≡ slice_get source.now (k / ratio) }
{
    match ratio {
        1 => row.copy_from_slice(source),
        2 => repeat_twice(source, row),
        4 => repeat_four_times(source, row),
        _ => repeat_pixels(source, row, ratio),
    }
}

/// Writes each pixel of `source` `ratio` times into `row`, for any ratio.
fn repeat_pixels<T: Copy>(source: &[T], row: &mut [T], ratio: usize)
    requires { IsSubsampledSize (length row.old) ratio (length source.now) }
    ensures { (k : ℕ) → k < length row.new
        → slice_get row.new k ≡ slice_get source.now (k / ratio) }
{
    for x in 0..row.len() {
        row[x] = source[x / ratio];
    }
}

/// Writes each pixel of `source` twice into `row`.
fn repeat_twice<T: Copy>(source: &[T], row: &mut [T])
    requires { length source.now ≡ (length row.old + 1) / 2 }
    ensures { (k : ℕ) → k < length row.new
        → slice_get row.new k ≡ slice_get source.now (k / 2) }
{
    let pairs = row.len() / 2;
    let (front, last) = row.split_at_mut(2 * pairs);
    write_twice(&source[..pairs], front);
    // The last column of an odd width.
    if last.len() == 1 {
        last[0] = source[pairs];
    }
}

/// Writes each pixel of `source` twice into `row`, which is exactly twice as long.
fn write_twice<T: Copy>(source: &[T], row: &mut [T])
    requires { length row.old ≡ 2 * length source.now }
    ensures { (k : ℕ) → k < length row.new
        → slice_get row.new k ≡ slice_get source.now (k / 2) }
{
    for i in 0..source.len() {
        let pixel = source[i];
        row[2 * i] = pixel;
        row[2 * i + 1] = pixel;
    }
}

/// Writes each pixel of `source` four times into `row`.
fn repeat_four_times<T: Copy>(source: &[T], row: &mut [T])
    requires { length source.now ≡ (length row.old + 3) / 4 }
    ensures { (k : ℕ) → k < length row.new
        → slice_get row.new k ≡ slice_get source.now (k / 4) }
{
    let groups = row.len() / 4;
    for i in 0..groups {
        let pixel = source[i];
        row[4 * i] = pixel;
        row[4 * i + 1] = pixel;
        row[4 * i + 2] = pixel;
        row[4 * i + 3] = pixel;
    }
    // The last columns of a width that is not divisible by four.
    for x in 4 * groups..row.len() {
        row[x] = source[groups];
    }
}

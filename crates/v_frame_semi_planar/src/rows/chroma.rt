//! Interleaves rows of two chroma components, and splits interleaved rows.
ghost use Rattle.std.specs.Prelude.{◌≡◌, ◌*◌, length};
ghost use Rattle.v_frame.specs.Prelude.{height_of, strided_rows, width_of, KeepsRest, RowsFit};
ghost use Rattle.v_frame_ops.specs.Change.{combined};
ghost use Rattle.v_frame_semi_planar.specs.Interleaved.{interleaved};

use crate::byte_pairs::{deinterleave_blocks, pairs_in_blocks};
use v_frame::pixel::Pixel;
use v_frame::plane::RowsRef;

/// Interleaves two rows: even columns of `row` get the pixels of `first`, and odd columns those of `second`.
///
/// `first` and `second` have the same length. `row` is twice as long.
pub fn interleave_row<T: Copy>(row: &mut [T], first: &[T], second: &[T])
    requires long { length row.old ≡ 2 * length first.now }
    requires equal { length second.now ≡ length first.now }
    ensures { row.new ≡ interleaved first.now second.now }
{
    if first.len() == 8 {
        interleave_eight(row, first, second);
    } else {
        interleave_pixels(row, first, second);
    }
}

/// Interleaves eight pixels of each row. They are combined in an array first, because the compiler cannot exclude that the row
/// overlaps them.
#[inline(always)]
fn interleave_eight<T: Copy>(row: &mut [T], first: &[T], second: &[T])
    requires long { length row.old ≡ 16 }
    requires first { length first.now ≡ 8 }
    requires second { length second.now ≡ 8 }
    ensures { row.new ≡ interleaved first.now second.now }
{
    let mut pairs = [first[0]; 16];
    interleave_pixels(&mut pairs, first, second);
    // Pixel by pixel: a copy of all bytes at once is one number to the compiler, which it does not turn into lanes.
    for x in 0..16 {
        row[x] = pairs[x];
    }
}

/// Interleaves two rows pixel by pixel.
#[inline(always)]
fn interleave_pixels<T: Copy>(row: &mut [T], first: &[T], second: &[T])
    requires long { length row.old ≡ 2 * length first.now }
    requires equal { length second.now ≡ length first.now }
    ensures { row.new ≡ interleaved first.now second.now }
{
    for x in 0..first.len() {
        let (p, q) = (first[x], second[x]);
        row[2 * x] = p;
        row[2 * x + 1] = q;
    }
}

/// Splits a row of interleaved pixels: `first` gets the pixels in even columns of `row`, and `second` those in odd columns.
///
/// `first` and `second` have the same length. `row` is twice as long.
pub fn deinterleave_row<T: Pixel>(row: &[T], first: &mut [T], second: &mut [T])
    requires long { length row.now ≡ 2 * length first.old }
    requires equal { length second.old ≡ length first.old }
    ensures { row.now ≡ interleaved first.new second.new }
{
    if first.len() == 8 {
        // The compiler unrolls the loop over this small, constant number of pixels.
        deinterleave_pixels(row, first, second);
        return;
    }
    let whole = pairs_in_blocks::<T>(first.len());
    let (front, rest) = row.split_at(2 * whole);
    let (first_front, first_rest) = first.split_at_mut(whole);
    let (second_front, second_rest) = second.split_at_mut(whole);
    deinterleave_blocks(front, first_front, second_front);
    deinterleave_pixels(rest, first_rest, second_rest);
}

/// Splits a row of interleaved pixels, pixel by pixel.
#[inline(always)]
fn deinterleave_pixels<T: Copy>(row: &[T], first: &mut [T], second: &mut [T])
    requires long { length row.now ≡ 2 * length first.old }
    requires equal { length second.old ≡ length first.old }
    ensures { row.now ≡ interleaved first.new second.new }
{
    for x in 0..first.len() {
        // Both pixels are read before one is written, so that the compiler can combine the reads into one wide load.
        let (p, q) = (row[2 * x], row[2 * x + 1]);
        first[x] = p;
        second[x] = q;
    }
}

/// Interleaves the rows of two pictures: in each row of `buffer`, even columns get the pixels of `first` and odd columns those
/// of `second`, as with [`interleave_row`].
///
/// `width`, `height` and `stride` describe the rows in `buffer`, in pixels. `first` and `second` have the same size: half of
/// `width`, and `height`.
#[tactic(auto, using(v_frame_raster::proofs::tables::StridedWrites::row_ends))]
pub fn interleave<T: Copy>(
    first: &RowsRef<'_, T>,
    second: &RowsRef<'_, T>,
    buffer: &mut [T],
    width: usize,
    height: usize,
    stride: usize,
)
    requires fit { RowsFit width height stride (length buffer.old) }
    requires wide { width ≡ 2 * width_of first.now }
    requires high { height ≡ height_of first.now }
    requires second_wide { width_of second.now ≡ width_of first.now }
    requires second_high { height_of second.now ≡ height_of first.now }
    ensures table { strided_rows width height stride buffer.new
        ≡ combined interleaved first.now second.now }
    ensures rest { KeepsRest width height stride buffer.old buffer.new }
{
    for y in 0..height {
        let start = stride * y;
        let row = &mut buffer[start..start + width];
        interleave_row(row, first.visible_row(y), second.visible_row(y));
    }
}

/// Splits rows of interleaved pixels: the rows in the buffer `first` get the pixels in even columns of `source`, and those in
/// `second` the pixels in odd columns.
///
/// `width` and `height` are the size, in pixels, of the rows in each of the two buffers, and `first_stride` and `second_stride`
/// their strides. `source` is twice as wide and equally high.
#[tactic(auto, using(v_frame_raster::proofs::tables::StridedWrites::row_ends))]
pub fn deinterleave<T: Pixel>(
    source: &RowsRef<'_, T>,
    width: usize,
    height: usize,
    first: &mut [T],
    first_stride: usize,
    second: &mut [T],
    second_stride: usize,
)
    requires wide { width_of source.now ≡ 2 * width }
    requires high { height_of source.now ≡ height }
    requires first_fit { RowsFit width height first_stride (length first.old) }
    requires second_fit { RowsFit width height second_stride (length second.old) }
    ensures table { source.now
        ≡ combined interleaved (strided_rows width height first_stride first.new)
        (strided_rows width height second_stride second.new) }
    ensures first_rest { KeepsRest width height first_stride first.old first.new }
    ensures second_rest { KeepsRest width height second_stride second.old second.new }
{
    for y in 0..height {
        let (start, second_start) = (first_stride * y, second_stride * y);
        deinterleave_row(
            source.visible_row(y),
            &mut first[start..start + width],
            &mut second[second_start..second_start + width],
        );
    }
}

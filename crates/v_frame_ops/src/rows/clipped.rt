//! Copies of a picture into the rows of a buffer, clipped to these rows.
ghost use Rattle.std.specs.Prelude.{◌≡◌, ◌+◌, ◌+ℤ◌, ◌<◌, ◌≤◌, ℕ, length, pos};
ghost use Rattle.v_frame.specs.Prelude.{height_of, pixel_at, strided_rows, width_of, KeepsRest, RowsFit};
ghost use Rattle.v_frame_ops.specs.Compose.{LiesOn};

use v_frame::pixel::Pixel;
use v_frame::plane::{RowsRef, copy_rows};

/// Copies the pixels of `source` into the rows in `buffer`, clipped to these rows. The top left pixel of `source` belongs at
/// column `x` of row `y`, and both numbers may be negative or lie past the edge. Source pixels that fall outside the rows are
/// skipped.
pub fn copy_region_clipped<T: Pixel>(
    source: &RowsRef<'_, T>,
    buffer: &mut [T],
    width: usize,
    height: usize,
    stride: usize,
    x: isize,
    y: isize,
)
    requires fit { RowsFit width height stride (length buffer.old) }
    ensures inside { (i j k l : ℕ) → i < width_of source.now → j < height_of source.now
        → k < width → l < height → LiesOn x y i j k l
        → pixel_at (strided_rows width height stride buffer.new) k l ≡ pixel_at source.now i j }
    ensures beside { (k l : ℕ)
        → ((i j : ℕ) → i < width_of source.now → j < height_of source.now → ¬ LiesOn x y i j k l)
        → pixel_at (strided_rows width height stride buffer.new) k l
        ≡ pixel_at (strided_rows width height stride buffer.old) k l }
    ensures rest { KeepsRest width height stride buffer.old buffer.new }
{
    let across = Overlap::new(x, source.width(), width);
    let down = Overlap::new(y, source.height(), height);
    if across.count == 0 || down.count == 0 {
        return;
    }
    let part = source.visible_region(across.skipped, down.skipped, across.count, down.count);
    let (_, from) = buffer.split_at_mut(stride * down.start + across.start);
    copy_rows(&part, from, across.count, down.count, stride);
}

/// The overlap of a source with a target along one axis: its columns or its rows.
#[derive(Clone, Copy)]
struct Overlap {
    /// The number of source columns (or rows) before the target begins.
    skipped: usize,
    /// The first column (or row) of the target that the source covers.
    start: usize,
    /// The number of columns (or rows) in which the source and the target overlap.
    count: usize,
}

impl Overlap {
    /// Returns the overlap of `source` columns (or rows) with `target` columns (or rows) if the source begins at `offset`.
    fn new(offset: isize, source: usize, target: usize) -> Self
        ensures in_source { 0 < result.count → result.skipped + result.count ≤ source }
        ensures in_target { 0 < result.count → result.start + result.count ≤ target }
        ensures place { 0 < result.count → pos result.start ≡ offset +ℤ pos result.skipped }
        ensures all { (i k : ℕ) → i < source → k < target → pos k ≡ offset +ℤ pos i
            → (result.skipped ≤ i) × (i < result.skipped + result.count) }
    {
        let (skipped, start) = if offset < 0 {
            (offset.unsigned_abs(), 0)
        } else {
            (0, offset as usize)
        };
        let count = source
            .saturating_sub(skipped)
            .min(target.saturating_sub(start));
        Overlap {
            skipped,
            start,
            count,
        }
    }
}

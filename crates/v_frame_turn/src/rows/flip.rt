//! Pictures flipped upside down, mirrored, or rotated by 180 degrees.
ghost use Rattle.std.specs.Prelude.{◌≡◌, length, map, reverse};
ghost use Rattle.v_frame.specs.Prelude.{height_of, strided_rows, width_of, KeepsRest, RowsFit};
ghost use Rattle.v_frame_turn.specs.Turn.{rotated_180};
ghost use Rattle.v_frame_turn.specs.Turning.{flipped};

use crate::rows::row::{counted, write_row};
use v_frame::pixel::Pixel;
use v_frame::plane::RowsRef;

/// Writes `source` upside down into the rows in `buffer`: the last row becomes the first, as with `np.flipud`. `source` has the
/// same size as the rows.
pub fn flip_vertical<T: Pixel>(
    source: &RowsRef<'_, T>,
    buffer: &mut [T],
    width: usize,
    height: usize,
    stride: usize,
)
    requires fit { RowsFit width height stride (length buffer.old) }
    requires wide { width_of source.now ≡ width }
    requires high { height_of source.now ≡ height }
    ensures table { strided_rows width height stride buffer.new ≡ reverse source.now }
    ensures rest { KeepsRest width height stride buffer.old buffer.new }
{
    flip(source, buffer, width, height, stride, true, false);
}

/// Writes `source` mirrored left to right into the rows in `buffer`: the last pixel of each row becomes the first, as with
/// `np.fliplr`. `source` has the same size as the rows.
pub fn flip_horizontal<T: Pixel>(
    source: &RowsRef<'_, T>,
    buffer: &mut [T],
    width: usize,
    height: usize,
    stride: usize,
)
    requires fit { RowsFit width height stride (length buffer.old) }
    requires wide { width_of source.now ≡ width }
    requires high { height_of source.now ≡ height }
    ensures table { strided_rows width height stride buffer.new ≡ map reverse source.now }
    ensures rest { KeepsRest width height stride buffer.old buffer.new }
{
    flip(source, buffer, width, height, stride, false, true);
}

/// Writes `source` rotated by 180 degrees into the rows in `buffer`. `source` has the same size as the rows.
pub fn rotate_180<T: Pixel>(
    source: &RowsRef<'_, T>,
    buffer: &mut [T],
    width: usize,
    height: usize,
    stride: usize,
)
    requires fit { RowsFit width height stride (length buffer.old) }
    requires wide { width_of source.now ≡ width }
    requires high { height_of source.now ≡ height }
    ensures table { strided_rows width height stride buffer.new ≡ rotated_180 source.now }
    ensures rest { KeepsRest width height stride buffer.old buffer.new }
{
    flip(source, buffer, width, height, stride, true, true);
}

/// Writes `source` into the rows, upside down if `from_bottom` is true and mirrored if `mirrored` is true.
#[inline(always)]
#[tactic(auto, using(v_frame_raster::proofs::tables::StridedWrites::row_ends))]
fn flip<T: Pixel>(
    source: &RowsRef<'_, T>,
    buffer: &mut [T],
    width: usize,
    height: usize,
    stride: usize,
    from_bottom: bool,
    mirrored: bool,
)
    requires fit { RowsFit width height stride (length buffer.old) }
    requires wide { width_of source.now ≡ width }
    requires high { height_of source.now ≡ height }
    ensures table { strided_rows width height stride buffer.new ≡ flipped from_bottom mirrored source.now }
    ensures rest { KeepsRest width height stride buffer.old buffer.new }
{
    for y in 0..height {
        let start = stride * y;
        let row = source.visible_row(counted(from_bottom, height, y));
        write_row(&mut buffer[start..start + width], row, mirrored);
    }
}

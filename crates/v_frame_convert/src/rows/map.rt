//! Pictures computed pixel by pixel from another picture, which may have another type of pixels.
ghost use Rattle.std.specs.Prelude.{◌≡◌, ◌+◌, ◌*◌, ◌<◌, ℕ, List, length};
ghost use Rattle.v_frame.specs.Prelude.{height_of, strided_rows, width_of, KeepsRest, RowsFit};
ghost use Rattle.v_frame_convert.specs.Convert.{converted, GivesPixels};
ghost use Rattle.v_frame_convert.specs.Rows.{GivesItems};

use v_frame::pixel::Pixel;
use v_frame::plane::RowsRef;

/// Sets each pixel of the rows in `buffer` to the result of `change` for the pixel of `source` in the same column and row.
/// `source` has the same size as the rows, and the types of pixels may differ.
///
/// `change` must accept every pixel of its type.
pub fn map_into<S: Pixel, T: Pixel, F: Fn(S) -> T>(
    source: &RowsRef<'_, S>,
    buffer: &mut [T],
    width: usize,
    height: usize,
    stride: usize,
    change: F,
)
    requires fit { RowsFit width height stride (length buffer.old) }
    requires callable { F.IsAlwaysCallable change }
    requires wide { width_of source.now ≡ width }
    requires high { height_of source.now ≡ height }
    ensures pixels { GivesPixels (F.post change) source.now
        (strided_rows width height stride buffer.new) }
    ensures converted { (g : S → T) → ((p : S) (q : T) → F.post change p q → q ≡ g p)
        → strided_rows width height stride buffer.new ≡ converted (converted g) source.now }
    ensures rest { KeepsRest width height stride buffer.old buffer.new }
{
    map_rows(source, buffer, width, height, stride, &change);
}

/// Sets each pixel of the rows to the result of `change` for the pixel of `source` at the same position, row by row.
#[tactic(auto, using(v_frame_raster::proofs::tables::StridedWrites::row_ends))]
fn map_rows<S: Copy, T: Copy, F: Fn(S) -> T>(
    source: &RowsRef<'_, S>,
    buffer: &mut [T],
    width: usize,
    height: usize,
    stride: usize,
    change: &F,
)
    requires fit { RowsFit width height stride (length buffer.old) }
    requires callable { F.IsAlwaysCallable change.now }
    requires wide { width_of source.now ≡ width }
    requires high { height_of source.now ≡ height }
    ensures rows { GivesItems (GivesItems (F.post change.now)) source.now
        (strided_rows width height stride buffer.new) }
    ensures rest { KeepsRest width height stride buffer.old buffer.new }
{
    for y in 0..height {
        let start = stride * y;
        map_row(
            source.visible_row(y),
            &mut buffer[start..start + width],
            change,
        );
    }
}

/// Sets each pixel of `row` to the result of `change` for the pixel of `source` at the same index.
fn map_row<S: Copy, T: Copy, F: Fn(S) -> T>(source: &[S], row: &mut [T], change: &F)
    requires callable { F.IsAlwaysCallable change.now }
    requires wide { length source.now ≡ length row.old }
    ensures { GivesItems (F.post change.now) source.now row.new }
{
    for x in 0..row.len() {
        row[x] = change(source[x]);
    }
}

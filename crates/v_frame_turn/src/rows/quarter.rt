//! Pictures transposed, or rotated by 90 or 270 degrees.
ghost use Rattle.std.specs.Prelude.{All, ◌≡◌, ◌-◌, ◌<◌, ◌≤◌, ℕ, false, length, true};
ghost use Rattle.v_frame.specs.Prelude.{height_of, pixel_at, strided_rows, width_of, KeepsRest, RowsFit};
ghost use Rattle.v_frame_turn.specs.Turn.{rotated_270, rotated_90, transposed};
ghost use Rattle.v_frame_turn.specs.Turning.{turned_pixel, ColumnIsRight, KeepsRight};

use crate::rows::row::counted;
use v_frame::pixel::Pixel;
use v_frame::plane::RowsRef;

/// The number of rows that are written together. Their cache lines fit the first-level cache.
const BLOCK: usize = 64;

/// The corner of the source that becomes the top left pixel of the result.
#[derive(Clone, Copy)]
struct Corner {
    from_right: bool,
    from_bottom: bool,
}

/// Writes `source` transposed into the rows in `buffer`: the pixel at column `x` of row `y` moves to column `y` of row `x`, as
/// with NumPy's `.T`. `width` equals the height of `source`, and `height` equals its width.
pub fn transpose<T: Pixel>(
    source: &RowsRef<'_, T>,
    buffer: &mut [T],
    width: usize,
    height: usize,
    stride: usize,
)
    requires fit { RowsFit width height stride (length buffer.old) }
    requires wide { height_of source.now ≡ width }
    requires high { width_of source.now ≡ height }
    ensures table { strided_rows width height stride buffer.new ≡ transposed source.now }
    ensures pixels { (x y : ℕ) → x < width → y < height
        → pixel_at (strided_rows width height stride buffer.new) x y ≡ pixel_at source.now y x }
    ensures rest { KeepsRest width height stride buffer.old buffer.new }
{
    let corner = Corner {
        from_right: false,
        from_bottom: false,
    };
    turn(source, buffer, width, height, stride, corner);
}

/// Writes `source` rotated by 90 degrees clockwise into the rows in `buffer`, as with `np.rot90(_, -1)`. `width` equals the
/// height of `source`, and `height` equals its width.
pub fn rotate_90<T: Pixel>(
    source: &RowsRef<'_, T>,
    buffer: &mut [T],
    width: usize,
    height: usize,
    stride: usize,
)
    requires fit { RowsFit width height stride (length buffer.old) }
    requires wide { height_of source.now ≡ width }
    requires high { width_of source.now ≡ height }
    ensures table { strided_rows width height stride buffer.new ≡ rotated_90 source.now }
    ensures pixels { (x y : ℕ) → x < width → y < height
        → pixel_at (strided_rows width height stride buffer.new) x y
        ≡ pixel_at source.now y (width - 1 - x) }
    ensures rest { KeepsRest width height stride buffer.old buffer.new }
{
    let corner = Corner {
        from_right: false,
        from_bottom: true,
    };
    turn(source, buffer, width, height, stride, corner);
}

/// Writes `source` rotated by 270 degrees clockwise, that is 90 degrees counterclockwise, into the rows in `buffer`, as with
/// `np.rot90`. `width` equals the height of `source`, and `height` equals its width.
pub fn rotate_270<T: Pixel>(
    source: &RowsRef<'_, T>,
    buffer: &mut [T],
    width: usize,
    height: usize,
    stride: usize,
)
    requires fit { RowsFit width height stride (length buffer.old) }
    requires wide { height_of source.now ≡ width }
    requires high { width_of source.now ≡ height }
    ensures table { strided_rows width height stride buffer.new ≡ rotated_270 source.now }
    ensures pixels { (x y : ℕ) → x < width → y < height
        → pixel_at (strided_rows width height stride buffer.new) x y
        ≡ pixel_at source.now (height - 1 - y) x }
    ensures rest { KeepsRest width height stride buffer.old buffer.new }
{
    let corner = Corner {
        from_right: true,
        from_bottom: false,
    };
    turn(source, buffer, width, height, stride, corner);
}

/// Writes the columns of `source` as rows, in blocks of rows.
fn turn<T: Pixel>(
    source: &RowsRef<'_, T>,
    buffer: &mut [T],
    width: usize,
    height: usize,
    stride: usize,
    corner: Corner,
)
    requires fit { RowsFit width height stride (length buffer.old) }
    requires wide { height_of source.now ≡ width }
    requires high { width_of source.now ≡ height }
    ensures pixels { (x y : ℕ) → x < width → y < height
        → pixel_at (strided_rows width height stride buffer.new) x y
        ≡ turned_pixel corner.from_right corner.from_bottom source.now x y }
    ensures source { All (λ row. length row ≡ height) source.now }
    ensures rest { KeepsRest width height stride buffer.old buffer.new }
{
    let _width = source.width();
    for block in 0..height / BLOCK + 1 {
        let from = BLOCK * block;
        let to = from + BLOCK.min(height - from);
        turn_block(source, buffer, width, height, stride, corner, from, to);
    }
}

/// Writes the rows `from..to`, two columns at a time.
fn turn_block<T: Pixel>(
    source: &RowsRef<'_, T>,
    buffer: &mut [T],
    width: usize,
    height: usize,
    stride: usize,
    corner: Corner,
    from: usize,
    to: usize,
)
    requires fit { RowsFit width height stride (length buffer.old) }
    requires wide { height_of source.now ≡ width }
    requires high { width_of source.now ≡ height }
    requires within { to ≤ height }
    ensures columns { (x : ℕ) → x < width → ColumnIsRight
        (turned_pixel corner.from_right corner.from_bottom source.now)
        (strided_rows width height stride buffer.new) x from to }
    ensures kept { KeepsRight (turned_pixel corner.from_right corner.from_bottom source.now)
        (strided_rows width height stride buffer.old) (strided_rows width height stride buffer.new) }
    ensures rest { KeepsRest width height stride buffer.old buffer.new }
{
    for pair in 0..(width - 1) / 2 + 1 {
        // For an odd width, the last column is written twice.
        let x = 2 * pair;
        let next = (x + 1).min(width - 1);
        turn_pair(
            source, buffer, width, height, stride, corner, x, next, from, to,
        );
    }
}

/// Writes the columns `x` and `next` of the rows `from..to`. It writes a pixel of both columns before it continues with the
/// next row, so that two rows of the source and the cache lines of the target stay in the first-level cache.
#[tactic(auto, using(crate::proofs::Entries::entry_within))]
fn turn_pair<T: Pixel>(
    source: &RowsRef<'_, T>,
    buffer: &mut [T],
    width: usize,
    height: usize,
    stride: usize,
    corner: Corner,
    x: usize,
    next: usize,
    from: usize,
    to: usize,
)
    requires fit { RowsFit width height stride (length buffer.old) }
    requires wide { height_of source.now ≡ width }
    requires high { width_of source.now ≡ height }
    requires across { x < width }
    requires next_across { next < width }
    requires within { to ≤ height }
    ensures column { ColumnIsRight
        (turned_pixel corner.from_right corner.from_bottom source.now)
        (strided_rows width height stride buffer.new) x from to }
    ensures next_column { ColumnIsRight
        (turned_pixel corner.from_right corner.from_bottom source.now)
        (strided_rows width height stride buffer.new) next from to }
    ensures kept { KeepsRight (turned_pixel corner.from_right corner.from_bottom source.now)
        (strided_rows width height stride buffer.old) (strided_rows width height stride buffer.new) }
    ensures rest { KeepsRest width height stride buffer.old buffer.new }
{
    let row = source.visible_row(counted(corner.from_bottom, width, x));
    let next_row = source.visible_row(counted(corner.from_bottom, width, next));
    for y in from..to {
        let column = counted(corner.from_right, height, y);
        let start = stride * y;
        buffer[start + x] = row[column];
        buffer[start + next] = next_row[column];
    }
}

//! Several lines of windows at once, for values below 8192. Each block is summed once, and the lines are processed in vertical
//! strips.
ghost use Rattle.std.specs.Prelude.{◌≡◌, ◌+◌, ◌*◌, ◌-◌, ◌/◌, ◌≤◌, ◌<◌, ◌^◌, ℕ, get_or, length, max};
ghost use Rattle.std.specs.List.{fold};
ghost use Rattle.std.specs.Float.Ieee.{add};
ghost use Rattle.v_frame.specs.Prelude.{height_of, width_of};
ghost use Rattle.v_frame_measures.specs.BlockSums.{AreSumsOfBytes, similarities_of, window_of};
ghost use Rattle.v_frame_measures.specs.ColumnSums.{HasValuesUpTo};
ghost use Rattle.v_frame_measures.specs.PixelSums.{AreSumsOver};
ghost use Rattle.v_frame_measures.specs.Ssim.{line_of};

use crate::similarity::blocks::BlockSums;
use crate::similarity::line_sum::LineSum;
use crate::similarity::window::SsimConstants;
use v_frame::pixel::Pixel;
use v_frame::plane::RowsRef;

/// Sets the first `count` entries of `sums`, at most 32, to the sums over the lines of windows from line `y` on. All values are
/// at most `most`.
pub(crate) fn sums_of_lines<T: Pixel, F: LineSum>(
    a: &RowsRef<'_, T>,
    b: &RowsRef<'_, T>,
    most: u16,
    constants: &SsimConstants,
    y: usize,
    count: usize,
    sums: &mut [F],
)
    requires wide { width_of a.now ≡ width_of b.now }
    requires high { height_of a.now ≡ height_of b.now }
    requires across { 36 ≤ width_of a.now }
    requires down { 4 * (y + count) + 4 ≤ height_of a.now }
    requires few { count ≤ 32 }
    requires narrow { most < 8192 }
    requires first { HasValuesUpTo T.form.value most a.now }
    requires second { HasValuesUpTo T.form.value most b.now }
    requires means { constants.now.means < 2 ^ 40 }
    requires variances { constants.now.variances < 2 ^ 40 }
    requires sums { length sums.old ≡ 32 }
    ensures value { (k : ℕ) → k < count → (d : F) → F.float (get_or sums.new k d)
        ≡ line_of T.form constants.now a.now b.now F.format (y + k) }
    ensures long { length sums.new ≡ 32 }
{
    let across = a.width() / 4 - 1;
    // These calls are needed only for their contracts, which the proof uses.
    let _other = b.width();
    let _height = a.height();
    for k in 0..count {
        sums[k] = F::zero();
    }
    let (mut above, mut below) = (BlockSums::none(), BlockSums::none());
    let strips = (across / 63).max(1);
    let mut first = 0;
    for strip in 0..strips {
        let windows = windows_of_strip(across, strip, strips);
        above.sum_rows(a, b, 4 * first, 4 * y, windows + 1);
        for line in 0..count {
            below.sum_rows(a, b, 4 * first, 4 * (y + line) + 4, windows + 1);
            sums[line] = with_windows(sums[line], &above, &below, most, constants, windows);
            above = below;
        }
        first += windows;
    }
}

/// Returns the number of windows of a strip: 63, or for the last strip all windows that are left.
fn windows_of_strip(across: usize, strip: usize, strips: usize) -> usize
    requires across { 8 ≤ across }
    requires strips { strips ≡ max (across / 63) 1 }
    requires inside { strip < strips }
    ensures one { strip + 1 < strips → result ≡ 63 }
    ensures last { strips ≤ strip + 1 → result ≡ across - 63 * strip }
    ensures within { 63 * strip + result ≤ across }
    ensures many { 8 ≤ result }
    ensures few { result < 127 }
{
    if strip + 1 < strips {
        63
    } else {
        across - 63 * strip
    }
}

/// Returns the sum of a line with `windows` more windows.
fn with_windows<F: LineSum>(
    sum: F,
    above: &BlockSums,
    below: &BlockSums,
    most: u16,
    constants: &SsimConstants,
    windows: usize,
) -> F
    requires many { 8 ≤ windows }
    requires few { windows < 127 }
    requires sums { (k : ℕ) → k < windows → AreSumsOver 64 (window_of above.now below.now k) }
    requires bytes { most < 256 → (k : ℕ) → k < windows → AreSumsOfBytes (window_of above.now below.now k) }
    requires means { constants.now.means < 2 ^ 40 }
    requires variances { constants.now.variances < 2 ^ 40 }
    ensures { F.float result ≡ fold (add F.format) (F.float sum)
        (similarities_of constants.now above.now below.now 0 windows) }
{
    if most < 256 && constants.means < 0x2000_0000 && constants.variances < 0x2000_0000 {
        above.add_windows_of_bytes(below, constants, sum, windows)
    } else {
        above.add_windows(below, constants, sum, windows)
    }
}

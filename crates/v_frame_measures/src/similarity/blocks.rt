//! Sums over blocks of 4 by 4 pixels with values below 8192, and over windows of 2 by 2 blocks.
ghost use Rattle.std.specs.Prelude.{◌≡◌, ◌+◌, ◌*◌, ◌≤◌, ◌<◌, ◌^◌, ℕ, slice_index};
ghost use Rattle.std.specs.List.{fold};
ghost use Rattle.std.specs.Float.Ieee.{add};
ghost use Rattle.v_frame.specs.Prelude.{height_of, width_of};
ghost use Rattle.v_frame_measures.specs.BlockSums.{AreBlockSums, AreSumsOfBytes, block_at, similarities_of, window_of};
ghost use Rattle.v_frame_measures.specs.ColumnSums.{AreSmall, HasNarrowValues, block_of};
ghost use Rattle.v_frame_measures.specs.PixelSums.{AreSumsOver};

use crate::similarity::columns::{ColumnSums, put_sums_of_fours};
use crate::similarity::lanes::{similarities_of_bytes, sums_of_windows};
use crate::similarity::line_sum::LineSum;
use crate::similarity::sums::PixelSums;
use crate::similarity::window::{SsimConstants, similarity};
use v_frame::pixel::Pixel;
use v_frame::plane::RowsRef;

/// Sums over up to 128 adjacent blocks of 4 by 4 pixels of two pictures. The blocks have the same rows.
#[derive(Clone, Copy)]
pub struct BlockSums {
    /// The sums of the values of the first picture.
    pub first: [u32; 128],
    /// The sums of the values of the second picture.
    pub second: [u32; 128],
    /// The sums of the squared values of both pictures.
    pub squares: [u32; 128],
    /// The sums of the products of two values at the same position.
    pub products: [u32; 128],
}

impl BlockSums {
    /// Returns sums that are all zero.
    pub(crate) fn none() -> Self {
        BlockSums {
            first: [0; 128],
            second: [0; 128],
            squares: [0; 128],
            products: [0; 128],
        }
    }

    /// Sets the first `count` entries, at least eight, to the sums over the blocks from column `x` of row `y` on.
    pub(crate) fn sum_rows<T: Pixel>(
        &mut self,
        a: &RowsRef<'_, T>,
        b: &RowsRef<'_, T>,
        x: usize,
        y: usize,
        count: usize,
    )
        requires wide { width_of a.now ≡ width_of b.now }
        requires high { height_of a.now ≡ height_of b.now }
        requires across { x + 4 * count ≤ width_of a.now }
        requires down { y + 4 ≤ height_of a.now }
        requires many { 8 ≤ count }
        requires few { count ≤ 128 }
        requires first { HasNarrowValues T.form.value a.now }
        requires second { HasNarrowValues T.form.value b.now }
        ensures { AreBlockSums T.form.value x y a.now b.now count self.new }
    {
        // These calls are needed only for their contracts, which the proof uses.
        let _width = a.width();
        let _other = b.width();
        let mut columns = ColumnSums::none();
        for eight in 0..(count + 7) / 8 {
            // The last group of eight ends with the last block, so it may overlap the group before it.
            let k = (8 * eight).min(count - 8);
            columns.sum_rows(a, b, x + 4 * k, y);
            self.put(k, &columns);
        }
    }

    /// Sets the eight entries from block `k` on to the sums of these columns, four columns for each block.
    #[inline(always)]
    fn put(&mut self, k: usize, columns: &ColumnSums)
        requires inside { k + 8 ≤ 128 }
        requires small { AreSmall columns.now }
        ensures made { (j : ℕ) → j < 8 → block_at self.new (k + j) ≡ block_of columns.now j }
        ensures kept { (j : ℕ) → j < k → block_at self.new j ≡ block_at self.old j }
    {
        put_sums_of_fours(&mut self.first, k, &columns.first);
        put_sums_of_fours(&mut self.second, k, &columns.second);
        put_sums_of_fours(&mut self.squares, k, &columns.squares);
        put_sums_of_fours(&mut self.products, k, &columns.products);
    }

    /// Adds the similarities of the first `windows` windows to `sum`, one after the other, and returns the result.
    pub(crate) fn add_windows<F: LineSum>(
        &self,
        below: &BlockSums,
        constants: &SsimConstants,
        sum: F,
        windows: usize,
    ) -> F
        requires few { windows < 128 }
        requires sums { (k : ℕ) → k < windows → AreSumsOver 64 (window_of self.now below.now k) }
        requires means { constants.now.means < 2 ^ 40 }
        requires variances { constants.now.variances < 2 ^ 40 }
        ensures { F.float result ≡ fold (add F.format) (F.float sum)
            (similarities_of constants.now self.now below.now 0 windows) }
    {
        let mut sum = sum;
        for k in 0..windows {
            sum = sum.with_window(similarity(constants, &self.window(below, k)));
        }
        sum
    }

    /// Returns the sums over window `k`.
    #[inline(always)]
    fn window(&self, below: &BlockSums, k: usize) -> PixelSums
        requires { k + 1 < 128 }
        ensures { result ≡ window_of self.now below.now k }
    {
        PixelSums {
            first: sum_of_window(&self.first, &below.first, k),
            second: sum_of_window(&self.second, &below.second, k),
            squares: sum_of_window(&self.squares, &below.squares, k),
            products: sum_of_window(&self.products, &below.products, k),
        }
    }

    /// Adds the similarities of the first `windows` windows to `sum`, one after the other, and returns the result. The values
    /// are bytes, and there are at least eight windows.
    pub(crate) fn add_windows_of_bytes<F: LineSum>(
        &self,
        below: &BlockSums,
        constants: &SsimConstants,
        sum: F,
        windows: usize,
    ) -> F
        requires many { 8 ≤ windows }
        requires few { windows < 128 }
        requires sums { (k : ℕ) → k < windows → AreSumsOfBytes (window_of self.now below.now k) }
        requires means { constants.now.means < 2 ^ 29 }
        requires variances { constants.now.variances < 2 ^ 29 }
        ensures { F.float result ≡ fold (add F.format) (F.float sum)
            (similarities_of constants.now self.now below.now 0 windows) }
    {
        let mut sum = sum;
        for eight in 0..(windows + 7) / 8 {
            // The last group of eight ends with the last window, so it may overlap the group before it.
            let k = (8 * eight).min(windows - 8);
            let found = self.eight_of_bytes(below, constants, k);
            for i in 8 * eight - k..8 {
                sum = sum.with_window(found[i]);
            }
        }
        sum
    }

    /// Returns the similarities of the eight windows from window `k` on. The values are bytes.
    #[inline(always)]
    fn eight_of_bytes(&self, below: &BlockSums, constants: &SsimConstants, k: usize) -> [f32; 8]
        requires inside { k + 8 < 128 }
        requires sums { (j : ℕ) → k ≤ j → j < k + 8 → AreSumsOfBytes (window_of self.now below.now j) }
        requires means { constants.now.means < 2 ^ 29 }
        requires variances { constants.now.variances < 2 ^ 29 }
        ensures { result ≡ similarities_of constants.now self.now below.now k 8 }
    {
        similarities_of_bytes(
            constants,
            sums_of_windows(&self.first, &below.first, k),
            sums_of_windows(&self.second, &below.second, k),
            sums_of_windows(&self.squares, &below.squares, k),
            sums_of_windows(&self.products, &below.products, k),
        )
        .to_array()
    }
}

/// Returns the sum over window `k`: two adjacent entries of `above` and the two entries of `below` at the same indexes.
#[inline(always)]
fn sum_of_window(above: &[u32; 128], below: &[u32; 128], k: usize) -> u64
    requires { k + 1 < 128 }
    ensures { result ≡ slice_index above.now k + slice_index below.now k
        + (slice_index above.now (k + 1) + slice_index below.now (k + 1)) }
{
    u64::from(above[k]) + u64::from(below[k]) + (u64::from(above[k + 1]) + u64::from(below[k + 1]))
}

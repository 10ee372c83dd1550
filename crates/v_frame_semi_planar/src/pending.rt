//! Encodes the samples of a frame in a semi-planar layout block by block.
ghost use Rattle.std.specs.Prelude.{ℕ, List, ◌≡◌, ◌*◌, ◌++◌, ◌<◌, ◌≤◌, [], length, take, MatchOption};
ghost use Rattle.v_frame.specs.Prelude.{row_major, table_of};
ghost use Rattle.v_frame_ops.specs.Change.{combined};
ghost use Rattle.v_frame_semi_planar.specs.Interleaved.{interleaved};
ghost use Rattle.v_frame_semi_planar.specs.SemiPlanar.{stored_bytes};

use crate::samples::{encode_pairs, encode_samples};
use v_frame::pixel::Pixel;
use v_frame::plane::{Plane, Rows};

/// The samples that are still to be encoded: the rest of the current row of luma or of both chroma planes, and the remaining
/// rows of each plane.
#[derive(Drop)]
pub(crate) struct Pending<'a, T> {
    luma: &'a [T],
    luma_rows: Rows<'a, T>,
    first: &'a [T],
    second: &'a [T],
    first_rows: Rows<'a, T>,
    second_rows: Rows<'a, T>,
}

impl<'a, T: Pixel> Pending<'a, T> {
    ghost use Rattle.v_frame_semi_planar.specs.Pending.{pixels_pending, steps_pending, Encodes};

    /// Begins with all samples of luma, followed by the interleaved samples of the two chroma planes.
    pub(crate) fn new(luma: &'a Plane<T>, first: &'a Plane<T>, second: &'a Plane<T>) -> Self
        ensures { pixels_pending result ≡ row_major (table_of luma.now)
            ++ row_major (combined interleaved (table_of first.now) (table_of second.now)) }
    {
        Pending {
            luma: &[],
            luma_rows: luma.rows(),
            first: &[],
            second: &[],
            first_rows: first.rows(),
            second_rows: second.rows(),
        }
    }

    /// Encodes samples into `block` until no other pair fits or none is left, and returns the number of bytes encoded. `unused`
    /// is the number of unused low bits of each sample.
    pub(crate) fn fill(&mut self, block: &mut [u8], unused: u32) -> usize
        requires room { 4 ≤ length block.old }
        requires few { unused < 8 }
        ensures bound { result ≤ length block.new }
        ensures size { length block.new ≡ length block.old }
        ensures bytes { stored_bytes T.form unused (pixels_pending self.old)
            ≡ take result block.new ++ stored_bytes T.form unused (pixels_pending self.new) }
        ensures none_left { result ≡ 0
            → stored_bytes T.form unused (pixels_pending self.old) ≡ [] }
    {
        let mut filled = 0;
        while 2 * T::BYTES <= block.len() - filled {
            match self.encode_next(&mut block[filled..], unused) {
                Some(count) => filled += count,
                None => return filled,
            }
        }
        filled
    }

    /// Encodes as many samples of the current row as fit `block`, or begins the next row. Returns the number of bytes encoded,
    /// or `None` if no row is left.
    fn encode_next(&mut self, block: &mut [u8], unused: u32) -> Option<usize>
        requires room { 2 * T.BYTES ≤ length block.old }
        requires few { unused < 8 }
        ensures size { length block.new ≡ length block.old }
        ensures value { MatchOption result
            ((pixels_pending self.old ≡ []) × (pixels_pending self.new ≡ []))
            (Encodes T.form unused self.old self.new block.new) }
    {
        if !self.luma.is_empty() {
            return Some(self.encode_luma(block, unused));
        }
        if let Some(row) = self.luma_rows.next() {
            self.luma = row;
            return Some(0);
        }
        if !self.first.is_empty() && !self.second.is_empty() {
            return Some(self.encode_chroma(block, unused));
        }
        self.begin_chroma()
    }

    /// Begins the next row of both chroma planes. Returns `None` if no row is left, and 0 otherwise.
    fn begin_chroma(&mut self) -> Option<usize>
        requires luma { self.old.luma.now ≡ [] }
        requires rows { self.old.luma_rows ≡ [] }
        requires begun { interleaved self.old.first.now self.old.second.now ≡ [] }
        ensures { MatchOption result
            ((pixels_pending self.old ≡ []) × (pixels_pending self.new ≡ []))
            (λ count. (count ≡ 0)
            × (pixels_pending self.new ≡ pixels_pending self.old)
            × (steps_pending self.new < steps_pending self.old)) }
    {
        let first = self.first_rows.next()?;
        let second = self.second_rows.next()?;
        self.first = first;
        self.second = second;
        Some(0)
    }

    /// Encodes as many samples of the current luma row as fit `block`, and returns the number of bytes encoded.
    fn encode_luma(&mut self, block: &mut [u8], unused: u32) -> usize
        requires some { 0 < length self.old.luma.now }
        requires room { T.BYTES ≤ length block.old }
        requires few { unused < 8 }
        ensures size { length block.new ≡ length block.old }
        ensures value { Encodes T.form unused self.old self.new block.new result }
    {
        let count = self.luma.len().min(block.len() / T::BYTES);
        let (row, rest) = self.luma.split_at(count);
        self.luma = rest;
        let end = T::BYTES * count;
        encode_samples(&mut block[..end], row, unused);
        end
    }

    /// Encodes as many samples of the current two chroma rows as fit `block`, and returns the number of bytes encoded.
    fn encode_chroma(&mut self, block: &mut [u8], unused: u32) -> usize
        requires luma { self.old.luma.now ≡ [] }
        requires rows { self.old.luma_rows ≡ [] }
        requires some { 0 < length self.old.first.now }
        requires some_second { 0 < length self.old.second.now }
        requires room { 2 * T.BYTES ≤ length block.old }
        requires few { unused < 8 }
        ensures size { length block.new ≡ length block.old }
        ensures value { Encodes T.form unused self.old self.new block.new result }
    {
        let pairs = self.first.len().min(self.second.len());
        let count = pairs.min(block.len() / (2 * T::BYTES));
        let (first, first_rest) = self.first.split_at(count);
        let (second, second_rest) = self.second.split_at(count);
        self.first = first_rest;
        self.second = second_rest;
        let end = 2 * T::BYTES * count;
        encode_pairs(&mut block[..end], first, second, unused);
        end
    }
}

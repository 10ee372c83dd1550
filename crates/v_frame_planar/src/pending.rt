//! Encodes the pixels of a frame block by block.
ghost use Rattle.std.specs.Prelude.{◌≡◌, ◌+◌, ◌*◌, ◌<◌, ◌≤◌, ◌⊎◌, ◌++◌, [], false, true, length, take, option_map, MatchOption};
ghost use Rattle.v_frame.specs.Prelude.{bytes_of_pixels, table_of, tables_of};
ghost use Rattle.v_frame_planar.specs.Pending.{row_count};
ghost use Rattle.v_frame_planar.specs.Planar.{pixels_of_plane, planar_pixels};

use v_frame::frame::Frame;
use v_frame::pixel::{Pixel, encode_row};
use v_frame::plane::{Plane, Rows};

/// The pixels of a frame that are still to be encoded: the rest of the current row, and the remaining rows of each plane.
#[derive(Drop)]
pub(crate) struct Pending<'a, T> {
    row: &'a [T],
    y: Rows<'a, T>,
    u: Option<Rows<'a, T>>,
    v: Option<Rows<'a, T>>,
}

impl<'a, T: Pixel> Pending<'a, T> {
    ghost use Rattle.v_frame_planar.specs.Pending.{pixels_pending, pixels_behind, rows_behind};

    /// Begins with all pixels of a frame.
    pub(crate) fn new(frame: &'a Frame<T>) -> Self
        ensures { pixels_pending result ≡ planar_pixels (tables_of frame.now) }
    {
        Pending {
            row: &[],
            y: frame.y_plane.rows(),
            u: rows_of(&frame.u_plane),
            v: rows_of(&frame.v_plane),
        }
    }

    /// Encodes pixels into `block` until no other pixel fits or none is left, and returns the number of bytes encoded.
    pub(crate) fn fill(&mut self, block: &mut [u8]) -> usize
        requires { 2 ≤ length block.old }
        ensures bound { result ≤ length block.new }
        ensures size { length block.new ≡ length block.old }
        ensures bytes { bytes_of_pixels T.form (pixels_pending self.old)
            ≡ take result block.new ++ bytes_of_pixels T.form (pixels_pending self.new) }
        ensures none_left { result ≡ 0
            → bytes_of_pixels T.form (pixels_pending self.old) ≡ [] }
    {
        let mut filled = 0;
        while T::BYTES <= block.len() - filled && self.begin_row() {
            let room = (block.len() - filled) / T::BYTES;
            let (first, rest) = self.row.split_at(self.row.len().min(room));
            self.row = rest;
            let end = filled + T::BYTES * first.len();
            encode_row(&mut block[filled..end], first);
            filled = end;
        }
        filled
    }

    /// Begins the next row if the current one has been encoded. Returns `false` if no row is left.
    fn begin_row(&mut self) -> bool
        ensures pixels { pixels_pending self.new ≡ pixels_pending self.old }
        ensures progress { result ≡ true → (0 < length self.new.row.now)
            ⊎ (rows_behind self.new < rows_behind self.old) }
        ensures rows { rows_behind self.new ≤ rows_behind self.old }
        ensures none_left { result ≡ false → pixels_pending self.old ≡ [] }
    {
        if self.row.is_empty() {
            match self.next_row() {
                Some(row) => self.row = row,
                None => return false,
            }
        }
        true
    }

    /// Returns the next row.
    fn next_row(&mut self) -> Option<&'a [T]>
        ensures row { self.new.row ≡ self.old.row }
        ensures rows { MatchOption result (rows_behind self.new ≡ rows_behind self.old)
            (λ row. rows_behind self.new < rows_behind self.old) }
        ensures pixels { MatchOption result
            ((pixels_behind self.old ≡ []) × (pixels_behind self.new ≡ []))
            (λ row. pixels_behind self.old ≡ row.now ++ pixels_behind self.new) }
    {
        if let Some(row) = self.y.next() {
            return Some(row);
        }
        if let Some(row) = next_of(&mut self.u) {
            return Some(row);
        }
        next_of(&mut self.v)
    }
}

/// Returns the rows of a plane, if it is present.
fn rows_of<T>(plane: &Option<Plane<T>>) -> Option<Rows<'_, T>>
    ensures { result ≡ option_map table_of plane.now }
{
    match plane {
        Some(plane) => Some(plane.rows()),
        None => None,
    }
}

/// Returns the next row of a plane, if the plane is present and has one.
fn next_of<'a, T>(rows: &mut Option<Rows<'a, T>>) -> Option<&'a [T]>
    ensures count { MatchOption result (row_count rows.new ≡ row_count rows.old)
        (λ row. row_count rows.new < row_count rows.old) }
    ensures pixels { MatchOption result
        ((pixels_of_plane rows.old ≡ []) × (pixels_of_plane rows.new ≡ []))
        (λ row. pixels_of_plane rows.old ≡ row.now ++ pixels_of_plane rows.new) }
{
    rows.as_mut()?.next()
}

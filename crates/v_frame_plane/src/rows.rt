//! The iterator over the visible rows of a plane.
ghost use Rattle.std.specs.Prelude.{◌≡◌, ◌^◌, ◌<◌, length, Some, IfSome, ⊤};
ghost use Rattle.std.specs.Iterator.{at_most, UpTo};
ghost use Rattle.std.specs.Iterator.SizeHint.{IsWithinCount};
ghost use Rattle.std.specs.Map.Iter.{TakesFirst, TakesLast, deref};
ghost use Rattle.v_frame_raster.specs.Geometry.{IsGeometry};
ghost use Rattle.v_frame_raster.specs.Raster.{IsWhole, table_of};
ghost use Rattle.v_frame_raster.specs.Table.{row_major};

use crate::plane_ref::PlaneRef;
use std::alloc::AllocError;
use std::fmt;
use std::iter::FusedIterator;
use std::marker::Model;

/// A double-ended iterator over the visible rows of a plane, from top to bottom. Each row is a slice of pixels.
///
/// A contract sees the iterator as the list of the remaining rows. The iterator replaces the unnamed one that `Plane::rows` of
/// `v_frame` 0.7.0 returns.
#[derive(Drop)]
pub struct Rows<'a, T> {
    // The next row begins at index `start` of `rest`.
    rest: &'a [T],
    start: usize,
    width: usize,
    // The number of entries between the end of a row and the start of the next.
    gap: usize,
    count: usize,
}

impl<'a, T> Model for Rows<'a, T> {
    ghost use Rattle.std.specs.Prelude.{List, length};
    ghost use Rattle.v_frame_plane.specs.Cursor.{rows_ahead, RowsAreWithin};

    ghost Value = { List (List T) };

    ghost view = { λ a. rows_ahead a.start a.width a.gap a.count a.rest.now };

    ghost invariant = { λ a. RowsAreWithin a.start a.width a.gap a.count (length a.rest.now) };
}

impl<'a, T> Rows<'a, T> {
    /// Returns an iterator over the visible rows of `plane`.
    #[tactic(auto, using(crate::proofs::iterators::Cursors::visible_rows))]
    pub(crate) fn new(plane: &PlaneRef<'a, T>) -> Self
        ensures rows { result ≡ table_of plane.now }
        ensures bound { length result < 2 ^ 63 }
        ensures plane { IsWhole plane.now.geometry plane.now.buffer }
        ensures valid { IsGeometry plane.now.geometry }
    {
        let geometry = plane.geometry();
        let width = geometry.width();
        Rows {
            rest: plane.data(),
            start: geometry.data_origin(),
            width,
            gap: geometry.stride() - width,
            count: geometry.height(),
        }
    }

    /// Returns the number of pixels in the remaining rows.
    #[inline]
    pub(crate) fn pixel_count(&self) -> usize
        ensures { result ≡ length (row_major self.now) }
    {
        self.count * self.width
    }

    /// Returns a copy of the iterator.
    pub(crate) fn duplicate(&self) -> Self
        ensures { result ≡ self.now }
    {
        Rows {
            rest: self.rest,
            start: self.start,
            width: self.width,
            gap: self.gap,
            count: self.count,
        }
    }
}

impl<'a, T> Iterator for Rows<'a, T> {
    type Item = &'a [T];

    ghost next_gives = { TakesFirst deref };

    ghost remaining = { λ rows. at_most (length rows) };

    #[inline]
    #[tactic(auto, using(crate::proofs::iterators::Cursors::rows_taken))]
    fn next(&mut self) -> Option<&'a [T]> {
        if self.count == 0 {
            return None;
        }
        let (_, rest) = self.rest.split_at(self.start);
        let (row, rest) = rest.split_at(self.width);
        self.rest = rest;
        self.start = self.gap;
        self.count -= 1;
        Some(row)
    }

    #[inline]
    #[tactic(auto, using(crate::proofs::iterators::Cursors::count_of_rows))]
    fn size_hint(&self) -> (usize, Option<usize>)
        ensures lower { IsWithinCount result.0 (at_most (length self.now)) }
        ensures upper { IfSome result.1 (UpTo (at_most (length self.now))) }
        ensures exact { result ≡ (length self.now, Some (length self.now)) }
    {
        (self.count, Some(self.count))
    }
}

impl<'a, T> DoubleEndedIterator for Rows<'a, T> {
    ghost next_back_gives = { TakesLast deref };

    #[inline]
    #[tactic(auto, using(crate::proofs::iterators::Cursors::rows_taken))]
    fn next_back(&mut self) -> Option<&'a [T]> {
        if self.count == 0 {
            return None;
        }
        self.count -= 1;
        let (rest, last) = self
            .rest
            .split_at(self.start + self.count * (self.width + self.gap));
        self.rest = rest;
        Some(&last[..self.width])
    }
}

impl<'a, T> ExactSizeIterator for Rows<'a, T> {
    #[inline]
    #[tactic(auto, using(crate::proofs::iterators::Cursors::count_of_rows))]
    fn len(&self) -> usize {
        self.count
    }
}

impl<'a, T> FusedIterator for Rows<'a, T> {}

impl<'a, T> Clone for Rows<'a, T> {
    ghost is_clone = { λ rows copy. copy ≡ rows };

    ghost is_infallible = { λ _. ⊤ };

    fn clone(&self) -> Result<Self, AllocError> {
        Ok(self.duplicate())
    }
}

/// Prints the remaining rows as a list.
impl<'a, T: fmt::Debug> fmt::Debug for Rows<'a, T> {
    fn fmt<W: fmt::Write>(&self, f: &mut fmt::Formatter<W>) -> fmt::Result {
        f.debug_list().entries(self.duplicate()).finish()
    }
}

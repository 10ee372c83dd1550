//! The iterator over the visible pixels of a plane.
ghost use Rattle.std.specs.Prelude.{◌≡◌, ◌*◌, ◌^◌, ◌<◌, length, Some, IfSome, ⊤};
ghost use Rattle.std.specs.Iterator.{at_most, UpTo};
ghost use Rattle.std.specs.Iterator.SizeHint.{IsWithinCount};
ghost use Rattle.std.specs.Map.Iter.{TakesFirst, TakesLast};
ghost use Rattle.v_frame_raster.specs.Raster.{table_of};
ghost use Rattle.v_frame_raster.specs.Table.{row_major};

use crate::plane_ref::PlaneRef;
use crate::rows::Rows;
use std::alloc::AllocError;
use std::iter::FusedIterator;
use std::marker::Model;
use std::{fmt, mem};

/// A double-ended iterator over the visible pixels of a plane, row by row from the top.
///
/// A contract sees the iterator as the list of the remaining pixels. The iterator replaces the unnamed one that `Plane::pixels`
/// of `v_frame` 0.7.0 returns.
#[derive(Drop)]
pub struct Pixels<'a, T> {
    // The row that was begun from the front, the rows that were not begun, and the row that was begun from the back.
    front: &'a [T],
    rows: Rows<'a, T>,
    back: &'a [T],
}

impl<'a, T> Model for Pixels<'a, T> {
    ghost use Rattle.std.specs.Prelude.{List, ◌++◌};
    ghost use Rattle.v_frame_raster.specs.Table.{row_major};
    ghost use Rattle.v_frame_plane.specs.Cursor.{PixelsAreCountable};

    ghost Value = { List T };

    ghost view = { λ a. a.front.now ++ (row_major a.rows ++ a.back.now) };

    ghost invariant = { λ a. PixelsAreCountable a.front.now a.rows a.back.now };
}

impl<'a, T> Pixels<'a, T> {
    /// Returns an iterator over the visible pixels of `plane`.
    pub(crate) fn new(plane: &PlaneRef<'a, T>) -> Self
        ensures pixels { result ≡ row_major (table_of plane.now) }
        ensures count { length result ≡ plane.now.geometry.width * plane.now.geometry.height }
        ensures bound { 2 * length result < 2 ^ 63 }
    {
        Pixels {
            front: <&[T]>::default(),
            rows: Rows::new(plane),
            back: <&[T]>::default(),
        }
    }

    /// Returns a copy of the iterator.
    pub(crate) fn duplicate(&self) -> Self
        ensures { result ≡ self.now }
    {
        Pixels {
            front: self.front,
            rows: self.rows.duplicate(),
            back: self.back,
        }
    }
}

impl<'a, T: Copy> Iterator for Pixels<'a, T> {
    type Item = T;

    ghost next_gives = { TakesFirst (λ pixel. pixel) };

    ghost remaining = { λ pixels. at_most (length pixels) };

    #[inline]
    fn next(&mut self) -> Option<T> {
        if let Some((pixel, rest)) = self.front.split_first() {
            self.front = rest;
            return Some(*pixel);
        }
        let row = match self.rows.next() {
            Some(row) => row,
            None => mem::take(&mut self.back),
        };
        let (pixel, rest) = row.split_first()?;
        self.front = rest;
        Some(*pixel)
    }

    #[inline]
    fn size_hint(&self) -> (usize, Option<usize>)
        ensures lower { IsWithinCount result.0 (at_most (length self.now)) }
        ensures upper { IfSome result.1 (UpTo (at_most (length self.now))) }
        ensures exact { result ≡ (length self.now, Some (length self.now)) }
    {
        let len = self.len();
        (len, Some(len))
    }
}

impl<'a, T: Copy> DoubleEndedIterator for Pixels<'a, T> {
    ghost next_back_gives = { TakesLast (λ pixel. pixel) };

    #[inline]
    fn next_back(&mut self) -> Option<T> {
        let row = if self.back.is_empty() {
            match self.rows.next_back() {
                Some(row) => row,
                None => mem::take(&mut self.front),
            }
        } else {
            self.back
        };
        let (pixel, rest) = row.split_last()?;
        self.back = rest;
        Some(*pixel)
    }
}

impl<'a, T: Copy> ExactSizeIterator for Pixels<'a, T> {
    #[inline]
    fn len(&self) -> usize {
        self.front.len() + self.rows.pixel_count() + self.back.len()
    }
}

impl<'a, T: Copy> FusedIterator for Pixels<'a, T> {}

impl<'a, T> Clone for Pixels<'a, T> {
    ghost is_clone = { λ pixels copy. copy ≡ pixels };

    ghost is_infallible = { λ _. ⊤ };

    fn clone(&self) -> Result<Self, AllocError> {
        Ok(self.duplicate())
    }
}

/// Prints the remaining pixels as a list.
impl<'a, T: Copy + fmt::Debug> fmt::Debug for Pixels<'a, T> {
    fn fmt<W: fmt::Write>(&self, f: &mut fmt::Formatter<W>) -> fmt::Result {
        f.debug_list().entries(self.duplicate()).finish()
    }
}

//! The iterator that lends the visible pixels of a plane for writing.
ghost use Rattle.std.specs.Prelude.{◌≡◌, [], ◌∷◌, ◌++◌, ◌^◌, ◌<◌, length, Some, IfSome, ⊤};
ghost use Rattle.std.specs.Iterator.{UpTo, MakesProgress, YieldsFirstMut, YieldsLastMut, item_count};
ghost use Rattle.std.specs.Iterator.SizeHint.{IsWithinCount};
ghost use Rattle.v_frame_plane.specs.Cursor.{PixelsAreCountable};
ghost use Rattle.v_frame_plane.specs.Cut.{LendsFirst, LendsLast};
ghost use Rattle.v_frame_plane.specs.RowsLeft.{rows_left};
ghost use Rattle.std.specs.Borrow.{sem};

use crate::rows_mut::RowsMut;
use std::iter::FusedIterator;
use std::mem;

/// A double-ended iterator that lends the visible pixels of a plane for writing, row by row from the top.
///
/// A caller may keep a pixel while the iterator yields further pixels, and after the iterator is dropped. The contracts of
/// [`PixelsMut::next`] and [`PixelsMut::next_back`] state what the plane shows after writes to the pixels. A `for` loop or an
/// adapter calls the methods of the traits instead, whose contracts state which pixels are yielded and how many, but not what
/// the plane shows after writes. The iterator replaces the unnamed one that `Plane::pixels_mut` of `v_frame` 0.7.0 returns.
#[derive(Drop)]
pub struct PixelsMut<'a, T> {
    // The row that was begun from the front, the rows that were not begun, and the row that was begun from the back.
    front: &'a mut [T],
    rows: RowsMut<'a, T>,
    back: &'a mut [T],
    ghost countable: { PixelsAreCountable front.now (rows_left rows) back.now },
}

impl<'a, T> PixelsMut<'a, T> {
    ghost use Rattle.v_frame_plane.specs.PixelsLeft.{pixels_left};
    ghost use Rattle.v_frame_plane.specs.FinalPixels.{LendsFirstPixel, LendsLastPixel, TakesFirstPixel, TakesLastPixel};

    /// Returns an iterator over the pixels of `rows`.
    pub(crate) fn new(rows: RowsMut<'a, T>) -> Self
        requires { PixelsAreCountable [] (rows_left rows) [] }
        ensures rows { result.rows ≡ rows.entry }
        ensures front { result.front.now ≡ [] }
        ensures back { result.back.now ≡ [] }
    {
        PixelsMut {
            front: <&mut [T]>::default(),
            rows,
            back: <&mut [T]>::default(),
        }
    }

    /// Returns the first pixel of the row that was begun from the front.
    #[inline]
    fn next_of_front(&mut self) -> &'a mut T
        requires { 0 < length self.old.front.now }
        ensures* leaves { sem 𝓛 (TakesFirstPixel T.row self.old self.new result) }
        ensures steps { pixels_left self.old ≡ result.now ∷ pixels_left self.new }
    {
        let (pixel, rest) = cut_first(mem::take(&mut self.front));
        self.front = rest;
        pixel
    }

    /// Returns the last pixel of the row that was begun from the back.
    #[inline]
    fn next_of_back(&mut self) -> &'a mut T
        requires { 0 < length self.old.back.now }
        ensures* leaves { sem 𝓛 (TakesLastPixel T.row self.old self.new result) }
        ensures steps { pixels_left self.old ≡ pixels_left self.new ++ result.now ∷ [] }
    {
        let (pixel, rest) = cut_last(mem::take(&mut self.back));
        self.back = rest;
        pixel
    }

    /// Returns the next pixel, as [`Iterator::next`] does. The clause `leaves`, which the `next` of the trait does not have,
    /// states what the plane shows when the borrow ends. Not part of `v_frame` 0.7.0.
    #[inline]
    pub fn next(&mut self) -> Option<&'a mut T>
        ensures* leaves { sem 𝓛 (LendsFirstPixel T.row self.old result self.new) }
        ensures steps { YieldsFirstMut pixels_left self.old result self.new }
        ensures goes { MakesProgress (λ _. ⊤) (item_count pixels_left) self.old result self.new }
    {
        if self.front.len() == 0 {
            match self.rows.next() {
                Some(row) => self.front = row,
                None => self.front = mem::take(&mut self.back),
            }
            if self.front.len() == 0 {
                return None;
            }
            // This call is repeated below: a single call after this block would cost a jump for each pixel of a row that was
            // begun.
            return Some(self.next_of_front());
        }
        Some(self.next_of_front())
    }

    /// Returns the last pixel, as [`DoubleEndedIterator::next_back`] does. Not part of `v_frame` 0.7.0.
    #[inline]
    pub fn next_back(&mut self) -> Option<&'a mut T>
        ensures* leaves { sem 𝓛 (LendsLastPixel T.row self.old result self.new) }
        ensures steps { YieldsLastMut pixels_left self.old result self.new }
        ensures goes { MakesProgress (λ _. ⊤) (item_count pixels_left) self.old result self.new }
    {
        if self.back.len() == 0 {
            match self.rows.next_back() {
                Some(row) => self.back = row,
                None => self.back = mem::take(&mut self.front),
            }
            if self.back.len() == 0 {
                return None;
            }
            // This call is repeated below: a single call after this block would cost a jump for each pixel of a row that was
            // begun.
            return Some(self.next_of_back());
        }
        Some(self.next_of_back())
    }
}

impl<'a, T> Iterator for PixelsMut<'a, T> {
    ghost use Rattle.v_frame_plane.specs.PixelsLeft.{pixels_left};

    type Item = &'a mut T;

    ghost next_gives = { YieldsFirstMut pixels_left };

    ghost remaining = { item_count pixels_left };

    #[inline]
    fn next(&mut self) -> Option<&'a mut T> {
        PixelsMut::next(self)
    }

    #[inline]
    fn size_hint(&self) -> (usize, Option<usize>)
        ensures lower { IsWithinCount result.0 (item_count pixels_left self.now) }
        ensures upper { IfSome result.1 (UpTo (item_count pixels_left self.now)) }
        ensures exact { let left = length (pixels_left self.now) in result ≡ (left, Some left) }
    {
        let len = self.len();
        (len, Some(len))
    }
}

impl<'a, T> DoubleEndedIterator for PixelsMut<'a, T> {
    ghost use Rattle.v_frame_plane.specs.PixelsLeft.{pixels_left};

    ghost next_back_gives = { YieldsLastMut pixels_left };

    #[inline]
    fn next_back(&mut self) -> Option<&'a mut T> {
        PixelsMut::next_back(self)
    }
}

impl<'a, T> ExactSizeIterator for PixelsMut<'a, T> {
    #[inline]
    fn len(&self) -> usize {
        self.front.len() + self.rows.pixel_count() + self.back.len()
    }
}

impl<'a, T> FusedIterator for PixelsMut<'a, T> {}

/// Splits a slice that is not empty into its first entry and the remaining entries.
#[inline]
fn cut_first<T>(slice: &mut [T]) -> (&mut T, &mut [T])
    requires { 0 < length slice.old }
    ensures* writes_back { sem 𝓛 (LendsFirst T.row slice.entry result) }
    ensures value { slice.old ≡ result.0.now ∷ result.1.now }
{
    let (first, rest) = slice.split_at_mut(1);
    (&mut first[0], rest)
}

/// Splits a slice that is not empty into its last entry and the remaining entries. The last entry is the first item of the
/// result.
#[inline]
fn cut_last<T>(slice: &mut [T]) -> (&mut T, &mut [T])
    requires { 0 < length slice.old }
    ensures* writes_back { sem 𝓛 (LendsLast T.row slice.entry result) }
    ensures value { slice.old ≡ result.1.now ++ result.0.now ∷ [] }
{
    let len = slice.len();
    let (rest, last) = slice.split_at_mut(len - 1);
    (&mut last[0], rest)
}

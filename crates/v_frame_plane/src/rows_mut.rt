//! The iterator that lends the visible rows of a plane for writing.
ghost use Rattle.std.specs.Prelude.{◌≡◌, [], ◌+◌, ◌*◌, ◌^◌, ◌<◌, length, Some, IfSome, ⊤};
ghost use Rattle.std.specs.Iterator.{UpTo, MakesProgress, YieldsFirstMut, YieldsLastMut, item_count};
ghost use Rattle.std.specs.Iterator.SizeHint.{IsWithinCount};
ghost use Rattle.v_frame_plane.specs.Cursor.{PixelsAreCountable, RowsAreWithin};
ghost use Rattle.v_frame_raster.specs.Geometry.{IsGeometry};
ghost use Rattle.v_frame_raster.specs.Raster.{IsWhole, raster, table_of};
ghost use Rattle.v_frame_raster.specs.Table.{row_major};
ghost use Rattle.std.specs.Borrow.{sem};

use std::iter::FusedIterator;
use std::mem;
use v_frame_raster::geometry::PlaneGeometry;

/// A double-ended iterator that lends the visible rows of a plane for writing, from top to bottom. Each row is a slice of
/// pixels.
///
/// A caller may keep a row while the iterator yields further rows, and after the iterator is dropped. The contracts of
/// [`RowsMut::next`] and [`RowsMut::next_back`] state what the plane shows after writes to the rows. A `for` loop or an adapter
/// calls the methods of the traits instead, whose contracts state which rows are yielded and how many, but not what the plane
/// shows after writes. The iterator replaces the unnamed one that `Plane::rows_mut` of `v_frame` 0.7.0 returns.
#[derive(Drop)]
pub struct RowsMut<'a, T> {
    // The next row begins at index `start` of `rest`.
    rest: &'a mut [T],
    start: usize,
    width: usize,
    // The number of entries between the end of a row and the start of the next.
    gap: usize,
    count: usize,
    ghost within: { RowsAreWithin start width gap count (length rest.now) },
}

impl<'a, T> RowsMut<'a, T> {
    ghost use Rattle.v_frame_plane.specs.RowsLeft.{rows_left, rows_slice};
    ghost use Rattle.v_frame_plane.specs.FinalRows.{LendsFirstRow, LendsLastRow, WritesEachTable};

    /// Returns an iterator over the visible rows of a whole buffer.
    pub(crate) fn new(geometry: PlaneGeometry, buffer: &'a mut [T]) -> Self
        requires { IsWhole geometry buffer.old }
        ensures same_reference { (rows_slice result).ghost_name ≡ buffer.entry.ghost_name }
        ensures slice { (rows_slice result).now ≡ buffer.old }
        ensures rows { rows_left result ≡ table_of (raster geometry buffer.old) }
        ensures countable { PixelsAreCountable [] (rows_left result) [] }
        ensures bound { length (rows_left result) < 2 ^ 63 }
        ensures written { WritesEachTable (raster geometry buffer.old) result }
        ensures valid { IsGeometry geometry }
    {
        let width = geometry.width();
        RowsMut {
            rest: buffer,
            start: geometry.data_origin(),
            width,
            gap: geometry.stride() - width,
            count: geometry.height(),
        }
    }

    /// Returns the number of pixels in the remaining rows.
    #[inline]
    pub(crate) fn pixel_count(&self) -> usize
        ensures { result ≡ length (row_major (rows_left self.now)) }
    {
        self.count * self.width
    }

    /// Returns the next row, as [`Iterator::next`] does. The clause `leaves`, which the `next` of the trait does not have,
    /// states what the plane shows when the borrow ends. Not part of `v_frame` 0.7.0.
    #[inline]
    pub fn next(&mut self) -> Option<&'a mut [T]>
        ensures* leaves { sem 𝓛 (LendsFirstRow T.row self.old result self.new) }
        ensures steps { YieldsFirstMut rows_left self.old result self.new }
        ensures goes { MakesProgress (λ _. ⊤) (item_count rows_left) self.old result self.new }
    {
        let RowsMut {
            start,
            width,
            gap,
            count,
            ..
        } = *self;
        if count == 0 {
            return None;
        }
        let left = count - 1;
        let place = row_place(start, width, gap, 0);
        let cut = mem::take(&mut self.rest).split_at_mut(place);
        let row = cut.1.split_at_mut(width);
        // What lies after the row is kept.
        *self = RowsMut {
            rest: row.1,
            start: gap,
            width,
            gap,
            count: left,
        };
        Some(row.0)
    }

    /// Returns the last row, as [`DoubleEndedIterator::next_back`] does. Not part of `v_frame` 0.7.0.
    #[inline]
    pub fn next_back(&mut self) -> Option<&'a mut [T]>
        ensures* leaves { sem 𝓛 (LendsLastRow T.row self.old result self.new) }
        ensures steps { YieldsLastMut rows_left self.old result self.new }
        ensures goes { MakesProgress (λ _. ⊤) (item_count rows_left) self.old result self.new }
    {
        let RowsMut {
            start,
            width,
            gap,
            count,
            ..
        } = *self;
        if count == 0 {
            return None;
        }
        let left = count - 1;
        let place = row_place(start, width, gap, left);
        let cut = mem::take(&mut self.rest).split_at_mut(place);
        let row = cut.1.split_at_mut(width);
        // The entries before the row are kept.
        *self = RowsMut {
            rest: cut.0,
            start,
            width,
            gap,
            count: left,
        };
        Some(row.0)
    }
}

/// Returns the index at which row `row` begins, if row 0 is the next row.
#[inline]
fn row_place(start: usize, width: usize, gap: usize, row: usize) -> usize
    requires stride { width + gap < 2 ^ 64 }
    requires within { start + row * (width + gap) < 2 ^ 64 }
    ensures { result ≡ start + row * (width + gap) }
{
    start + row * (width + gap)
}

impl<'a, T> Iterator for RowsMut<'a, T> {
    ghost use Rattle.v_frame_plane.specs.RowsLeft.{rows_left};

    type Item = &'a mut [T];

    ghost next_gives = { YieldsFirstMut rows_left };

    ghost remaining = { item_count rows_left };

    #[inline]
    fn next(&mut self) -> Option<&'a mut [T]> {
        RowsMut::next(self)
    }

    #[inline]
    #[tactic(auto, using(crate::proofs::iterators::Cursors::count_left))]
    fn size_hint(&self) -> (usize, Option<usize>)
        ensures lower { IsWithinCount result.0 (item_count rows_left self.now) }
        ensures upper { IfSome result.1 (UpTo (item_count rows_left self.now)) }
        ensures exact { let left = length (rows_left self.now) in result ≡ (left, Some left) }
    {
        (self.count, Some(self.count))
    }
}

impl<'a, T> DoubleEndedIterator for RowsMut<'a, T> {
    ghost use Rattle.v_frame_plane.specs.RowsLeft.{rows_left};

    ghost next_back_gives = { YieldsLastMut rows_left };

    #[inline]
    fn next_back(&mut self) -> Option<&'a mut [T]> {
        RowsMut::next_back(self)
    }
}

impl<'a, T> ExactSizeIterator for RowsMut<'a, T> {
    #[inline]
    #[tactic(auto, using(crate::proofs::iterators::Cursors::count_left))]
    fn len(&self) -> usize {
        self.count
    }
}

impl<'a, T> FusedIterator for RowsMut<'a, T> {}

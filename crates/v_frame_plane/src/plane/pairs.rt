//! Mutable access to two parts of a whole buffer at once: a row and the entries after it, or two rows.
ghost use Rattle.std.specs.Prelude.{◌≡◌, ◌+◌, ◌<◌, ◌≤◌, Some, drop, length, slice_get, take};
ghost use Rattle.std.specs.Borrow.{sem};
ghost use Rattle.v_frame_raster.specs.Geometry.{place_of};
ghost use Rattle.v_frame_plane.specs.Cut.{LendsTwoParts};
ghost use Rattle.v_frame_plane.specs.Lends.{LendsRowAndRest, LendsVisibleRows};
ghost use Rattle.v_frame_raster.specs.Raster.{IsWhole, raster, table_of};
ghost use Rattle.v_frame_raster.specs.Writes.{WritesEachFront, WritesEachPair};

use super::PlaneGeometry;
use crate::place::row_start;

/// Returns the visible pixels of row `y` for writing, and the entries of the buffer after this row.
///
/// `buffer` must be the whole buffer of a plane with layout `geometry`, as for [`visible_rows_mut`]. The row number `y` must be
/// less than the height of `geometry`. If only the row is written, the proof of a caller knows everything that
/// [`Plane::visible_row_mut`](super::Plane::visible_row_mut) promises. This function returns the remaining entries as well,
/// because the toolchain can follow two slices borrowed from a slice, but not one. Not part of `v_frame` 0.7.0.
pub fn split_row_mut<T>(buffer: &mut [T], geometry: PlaneGeometry, y: usize) -> (&mut [T], &mut [T])
    requires whole { IsWhole geometry buffer.old }
    requires high { y < geometry.height }
    ensures* writes_back { sem 𝓛 (LendsRowAndRest T.row buffer.entry geometry y result) }
    ensures row { slice_get (table_of (raster geometry buffer.old)) y ≡ Some result.0.now }
    ensures wide { length result.0.now ≡ geometry.width }
    ensures rest { result.1.now ≡ drop (place_of geometry 0 y + geometry.width) buffer.old }
    ensures written { WritesEachFront (raster geometry buffer.old) y result.0.now result.1.now }
{
    let place = row_start(geometry, y);
    let width = geometry.width();
    let end = place + width;
    let behind = buffer.len() - end;
    two_parts(buffer, place, width, end, behind)
}

/// Returns the visible pixels of rows `y` and `z` for writing. Row `y` must lie above row `z`, that is, `y < z`.
///
/// `buffer` must be the whole buffer of a plane with layout `geometry`, and `z` must be less than its height. To call this for
/// a plane, read its geometry first: `visible_rows_mut(plane.data_mut(), geometry, y, z)`. The automatic proof of a caller
/// knows which pixels are written through both rows. Not part of `v_frame` 0.7.0.
pub fn visible_rows_mut<T>(
    buffer: &mut [T],
    geometry: PlaneGeometry,
    y: usize,
    z: usize,
) -> (&mut [T], &mut [T])
    requires whole { IsWhole geometry buffer.old }
    requires order { y < z }
    requires high { z < geometry.height }
    ensures* writes_back { sem 𝓛 (LendsVisibleRows T.row buffer.entry geometry y z result) }
    ensures first { slice_get (table_of (raster geometry buffer.old)) y ≡ Some result.0.now }
    ensures second { slice_get (table_of (raster geometry buffer.old)) z ≡ Some result.1.now }
    ensures first_wide { length result.0.now ≡ geometry.width }
    ensures second_wide { length result.1.now ≡ geometry.width }
    ensures written { WritesEachPair (raster geometry buffer.old) y z result.0.now result.1.now }
{
    let start = row_start(geometry, y);
    let next = row_start(geometry, z);
    let width = geometry.width();
    two_parts(buffer, start, width, next, width)
}

/// Returns two parts of a slice: `width` entries starting at `start`, and after them `other` entries starting at `next`.
fn two_parts<T>(
    entries: &mut [T],
    start: usize,
    width: usize,
    next: usize,
    other: usize,
) -> (&mut [T], &mut [T])
    requires order { start + width ≤ next }
    requires within { next + other ≤ length entries.old }
    ensures first { result.0.now ≡ take width (drop start entries.old) }
    ensures second { result.1.now ≡ take other (drop next entries.old) }
    ensures* writes_back { sem 𝓛 (LendsTwoParts T.row entries.entry start width next other result) }
{
    let halves = entries.split_at_mut(next);
    let front = halves.0.split_at_mut(start);
    let first = front.1.split_at_mut(width);
    let second = halves.1.split_at_mut(other);
    (first.0, second.0)
}

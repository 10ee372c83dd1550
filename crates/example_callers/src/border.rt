//! The border of a plane, filled through its whole buffer.
ghost use Rattle.std.specs.Prelude.{◌≡◌, ◌≢◌, ◌-◌, ◌<◌, ◌≤◌, ℕ, length, Some, slice_get};
ghost use Rattle.v_frame.specs.Prelude.{alloc_size_of, Fits, raster, filled, table_of, border_of, whole_rows, Border, Visible, cutting_plan, mark_at, AgreeAt};

use v_frame::laws::{places_have_marks, same_entries_same_table};
use v_frame::pixel::{Pixel, fill_row};
use v_frame::plane::{Plane, PlaneGeometry, visible_rows_mut};

/// Fills the border of a plane with `value`. The new border equals that of a plane whose entries are all `value`. The visible
/// pixels are unchanged.
pub fn fill_border<T: Pixel>(plane: &mut Plane<T>, value: T)
    ensures table { table_of plane.new ≡ table_of plane.old }
    ensures border { border_of plane.new ≡ border_of (filled value plane.old.geometry) }
    ensures geometry { plane.new.geometry ≡ plane.old.geometry }
{
    places_have_marks();
    same_entries_same_table::<T>();
    let geometry = plane.geometry();
    fill_border_places(geometry, plane.data_mut(), value);
}

/// Fills the rows above the visible rectangle, the entries on both sides of it, and the rows below.
fn fill_border_places<T: Copy>(geometry: PlaneGeometry, buffer: &mut [T], value: T)
    requires fits { Fits geometry }
    requires whole { length buffer.old ≡ alloc_size_of geometry }
    ensures border { (place : ℕ) → mark_at (cutting_plan geometry) place ≡ Some Border
        → slice_get buffer.new place ≡ Some value }
    ensures visible { AgreeAt Visible (raster geometry buffer.new) (raster geometry buffer.old) }
{
    places_have_marks();
    let stride = geometry.stride();
    let top = geometry.pad_top();
    let left = geometry.pad_left();
    let right = left + geometry.width();
    fill_part(buffer, 0, top * stride, value);
    for y in 0..geometry.height() {
        let start = (top + y) * stride;
        fill_part(buffer, start, start + left, value);
        fill_part(buffer, start + right, start + stride, value);
    }
    fill_part(
        buffer,
        (top + geometry.height()) * stride,
        buffer.len(),
        value,
    );
}

/// Fills the entries from index `start` up to, but excluding, index `end`.
fn fill_part<T: Copy>(buffer: &mut [T], start: usize, end: usize, value: T)
    requires order { start ≤ end }
    requires within { end ≤ length buffer.old }
    ensures before { (place : ℕ) → place < start
        → slice_get buffer.new place ≡ slice_get buffer.old place }
    ensures inside { (place : ℕ) → start ≤ place → place < end
        → slice_get buffer.new place ≡ Some value }
    ensures behind { (place : ℕ) → end ≤ place
        → slice_get buffer.new place ≡ slice_get buffer.old place }
{
    fill_row(&mut buffer[start..end], value);
}

/// Copies the first visible row into the row above it, both with their border. All other rows of the buffer are unchanged.
pub fn repeat_first_row<T: Copy>(plane: &mut Plane<T>)
    requires { 0 < plane.old.geometry.pad_top }
    ensures above { let top = plane.old.geometry.pad_top in
        slice_get (whole_rows plane.new) (top - 1) ≡ slice_get (whole_rows plane.old) top }
    ensures others { (k : ℕ) → k ≢ plane.old.geometry.pad_top - 1
        → slice_get (whole_rows plane.new) k ≡ slice_get (whole_rows plane.old) k }
    ensures geometry { plane.new.geometry ≡ plane.old.geometry }
{
    let geometry = plane.geometry();
    let whole = geometry.whole_buffer();
    let top = geometry.pad_top();
    let _height = plane.height();
    let (above, first) = visible_rows_mut(plane.data_mut(), whole, top - 1, top);
    above.copy_from_slice(first);
}

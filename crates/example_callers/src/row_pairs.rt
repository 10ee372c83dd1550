//! Two rows of a plane at once: exchanged, copied, and mixed pixel by pixel.
ghost use Rattle.std.specs.Prelude.{◌≡◌, ◌≢◌, ℕ, ◌+◌, ◌-◌, ◌<◌, List, Some, length, slice_get, slice_set};
ghost use Rattle.v_frame.specs.Prelude.{KeepsBorder, table_of};
ghost use Rattle.example_callers.specs.RowPairs.{averages};

use v_frame::plane::{Plane, visible_rows_mut};

/// Exchanges rows `y` and `z`. Row `y` must lie above row `z`.
pub fn swap_rows<T: Copy>(plane: &mut Plane<T>, y: usize, z: usize)
    requires order { y < z }
    requires high { z < plane.old.geometry.height }
    ensures table { (row other : List T) → slice_get (table_of plane.old) y ≡ Some row
        → slice_get (table_of plane.old) z ≡ Some other
        → table_of plane.new ≡ slice_set (slice_set (table_of plane.old) y other) z row }
    ensures border { KeepsBorder plane.old plane.new }
{
    let geometry = plane.geometry();
    let (upper, lower) = visible_rows_mut(plane.data_mut(), geometry, y, z);
    upper.swap_with_slice(lower);
}

/// Copies row `y` over row `z`, which must lie below it.
pub fn copy_row_down<T: Copy>(plane: &mut Plane<T>, y: usize, z: usize)
    requires order { y < z }
    requires high { z < plane.old.geometry.height }
    ensures copied { slice_get (table_of plane.new) z ≡ slice_get (table_of plane.old) y }
    ensures others { (k : ℕ) → k ≢ z
        → slice_get (table_of plane.new) k ≡ slice_get (table_of plane.old) k }
    ensures border { KeepsBorder plane.old plane.new }
{
    let geometry = plane.geometry();
    let (row, other) = visible_rows_mut(plane.data_mut(), geometry, y, z);
    other.copy_from_slice(row);
}

/// Mixes each row with the row below it, rounded down. This shifts the picture by half a row. The last row is unchanged.
pub fn mix_rows_down(plane: &mut Plane<u8>)
    ensures mixed { (k : ℕ) (row below : List ℕ) → slice_get (table_of plane.old) k ≡ Some row
        → slice_get (table_of plane.old) (k + 1) ≡ Some below
        → slice_get (table_of plane.new) k ≡ Some (averages row below) }
    ensures last { (k : ℕ) → k + 1 ≡ plane.old.geometry.height
        → slice_get (table_of plane.new) k ≡ slice_get (table_of plane.old) k }
    ensures border { KeepsBorder plane.old plane.new }
{
    for y in 0..plane.height() - 1 {
        mix_with_next(plane, y);
    }
}

/// Mixes each row with the row above it, rounded down. This shifts the picture by half a row. The first row is unchanged.
pub fn mix_rows_up(plane: &mut Plane<u8>)
    ensures mixed { (k : ℕ) (above row : List ℕ) → slice_get (table_of plane.old) k ≡ Some above
        → slice_get (table_of plane.old) (k + 1) ≡ Some row
        → slice_get (table_of plane.new) (k + 1) ≡ Some (averages row above) }
    ensures first { slice_get (table_of plane.new) 0 ≡ slice_get (table_of plane.old) 0 }
    ensures border { KeepsBorder plane.old plane.new }
{
    let height = plane.height();
    for k in 1..height {
        mix_with_previous(plane, height - k);
    }
}

/// Smooths a plane vertically: each row becomes a mix of the row above it, twice itself, and the row below it. The first and
/// the last row are mixed with their only neighbor.
pub fn smooth_rows(plane: &mut Plane<u8>)
    ensures inner { (k : ℕ) (above row below : List ℕ)
        → slice_get (table_of plane.old) k ≡ Some above
        → slice_get (table_of plane.old) (k + 1) ≡ Some row
        → slice_get (table_of plane.old) (k + 1 + 1) ≡ Some below
        → slice_get (table_of plane.new) (k + 1)
        ≡ Some (averages (averages row below) (averages above row)) }
    ensures first { (row below : List ℕ) → slice_get (table_of plane.old) 0 ≡ Some row
        → slice_get (table_of plane.old) 1 ≡ Some below
        → slice_get (table_of plane.new) 0 ≡ Some (averages row below) }
    ensures last { (k : ℕ) (above row : List ℕ) → k + 1 + 1 ≡ plane.old.geometry.height
        → slice_get (table_of plane.old) k ≡ Some above
        → slice_get (table_of plane.old) (k + 1) ≡ Some row
        → slice_get (table_of plane.new) (k + 1) ≡ Some (averages row (averages above row)) }
    ensures only { plane.old.geometry.height ≡ 1
        → slice_get (table_of plane.new) 0 ≡ slice_get (table_of plane.old) 0 }
    ensures border { KeepsBorder plane.old plane.new }
{
    mix_rows_down(plane);
    mix_rows_up(plane);
}

/// Mixes row `y` with the row below it.
fn mix_with_next(plane: &mut Plane<u8>, y: usize)
    requires { y + 1 < plane.old.geometry.height }
    ensures mixed { (row below : List ℕ) → slice_get (table_of plane.old) y ≡ Some row
        → slice_get (table_of plane.old) (y + 1) ≡ Some below
        → slice_get (table_of plane.new) y ≡ Some (averages row below) }
    ensures others { (k : ℕ) → k ≢ y
        → slice_get (table_of plane.new) k ≡ slice_get (table_of plane.old) k }
    ensures border { KeepsBorder plane.old plane.new }
{
    let geometry = plane.geometry();
    let (row, below) = visible_rows_mut(plane.data_mut(), geometry, y, y + 1);
    mix(row, below);
}

/// Mixes row `y` with the row above it.
fn mix_with_previous(plane: &mut Plane<u8>, y: usize)
    requires below_first { 0 < y }
    requires high { y < plane.old.geometry.height }
    ensures mixed { (above row : List ℕ) → slice_get (table_of plane.old) (y - 1) ≡ Some above
        → slice_get (table_of plane.old) y ≡ Some row
        → slice_get (table_of plane.new) y ≡ Some (averages row above) }
    ensures others { (k : ℕ) → k ≢ y
        → slice_get (table_of plane.new) k ≡ slice_get (table_of plane.old) k }
    ensures border { KeepsBorder plane.old plane.new }
{
    let geometry = plane.geometry();
    let (above, row) = visible_rows_mut(plane.data_mut(), geometry, y - 1, y);
    mix(row, above);
}

/// Sets each pixel of `row` to the average of this pixel and the pixel at the same index of `other`, rounded down.
fn mix(row: &mut [u8], other: &[u8])
    requires { length row.old ≡ length other.now }
    ensures { row.new ≡ averages row.old other.now }
{
    for x in 0..row.len() {
        row[x] = row[x].midpoint(other[x]);
    }
}

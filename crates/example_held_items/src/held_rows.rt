//! A row that an iterator lends from the end of a plane, and that is written.
//!
//! The hand-written proof in `proofs/held_rows/fill_last_row` shows which pixels the plane has at the end.
ghost use Rattle.std.specs.Prelude.{◌≡◌, ◌-◌, length, replicate, slice_set};
ghost use Rattle.v_frame.specs.Prelude.{KeepsBorder, height_of, table_of};

use v_frame::laws::held_rows_are_the_table;
use v_frame::plane::Plane;

/// Fills the last visible row with one value. All other rows and the border are unchanged.
pub fn fill_last_row<T: Copy>(plane: &mut Plane<T>, value: T)
    ensures table { table_of plane.new
        ≡ slice_set (table_of plane.old) (height_of (table_of plane.old) - 1)
        (replicate plane.old.geometry.width value) }
    ensures border { KeepsBorder plane.old plane.new }
{
    let mut rows = plane.rows_mut();
    if let Some(row) = rows.next_back() {
        fill(row, value);
    }
    held_rows_are_the_table::<T>();
}

/// Fills a row with one value. The standard `fill` requires a `clone` that cannot fail, which `Copy` does not guarantee.
fn fill<T: Copy>(row: &mut [T], value: T)
    ensures { row.new ≡ replicate (length row.old) value }
{
    for i in 0..row.len() {
        row[i] = value;
    }
}

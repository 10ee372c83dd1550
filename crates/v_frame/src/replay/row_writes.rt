//! The calls that write rows: one row by its number, or the rows that an iterator yields.
ghost use Rattle.std.specs.Prelude.{◌≡◌, [], ◌∷◌, length, map, slice_get, IfOk, OnOk, OnErr};
ghost use Rattle.v_frame_raster.specs.Table.{overwritten_row, with_writes};
ghost use Rattle.v_frame_raster.specs.Raster.{KeepsBorder, table_of};
ghost use Rattle.std.specs.Borrow.{sem};
ghost use Rattle.v_frame_plane.specs.RowsLeft.{rows_left};
ghost use Rattle.v_frame.specs.DrawnItems.{PutsRowsBack};
ghost use Rattle.v_frame.specs.Walk.{draws_answer, remaining_after, row_written, side_of_row, rows_written};
ghost use Rattle.v_frame.specs.declared.replay.answer.Answer.TheVariants.{RowShown, RowsWalked};

use super::answer::Answer;
use super::draw::{Draw, RowDraw, Side};
use super::reads::row_shown;
use super::walk::walked;
use crate::plane::{Plane, RowsMut};
use std::alloc::{AllocError, Global};
use v_frame_plane::laws::held_rows_are_the_table;

/// Overwrites row `y`, and returns the row before the write. The memory for the result is allocated first.
pub(crate) fn replay_row_mut<T: Copy>(
    alloc: Global,
    plane: &mut Plane<T>,
    y: usize,
    writes: &[Option<T>],
) -> Result<Answer<T>, AllocError>
    ensures answer { IfOk result (λ answer.
        answer ≡ RowShown (slice_get (table_of plane.old) y)) }
    ensures table { OnOk result (table_of plane.new ≡ with_writes (table_of plane.old) y writes.now) }
    ensures err { OnErr result (plane.new ≡ plane.old) }
    ensures border { KeepsBorder plane.old plane.new }
{
    let answer = row_shown(alloc, plane, y)?;
    overwrite_row(plane, y, writes);
    Ok(answer)
}

/// Overwrites row `y`. Nothing changes if `y` is not less than the visible height.
fn overwrite_row<T: Copy>(plane: &mut Plane<T>, y: usize, writes: &[Option<T>])
    ensures table { table_of plane.new ≡ with_writes (table_of plane.old) y writes.now }
    ensures border { KeepsBorder plane.old plane.new }
{
    if y < plane.height() {
        overwrite(plane.visible_row_mut(y), writes);
    }
}

/// Writes the entries that are `Some` into a row. Entries past the end of the row are ignored.
fn overwrite<T: Copy>(row: &mut [T], writes: &[Option<T>])
    ensures { row.new ≡ overwritten_row row.old writes.now }
{
    for i in 0..row.len().min(writes.len()) {
        // This stores at every index instead of branching, so that the loop is vectorized.
        row[i] = writes[i].unwrap_or(row[i]);
    }
}

/// Overwrites the rows that `draws` take, and returns the rows before the writes. The memory for the result is allocated first.
pub(crate) fn replay_rows_mut<T: Copy>(
    alloc: Global,
    plane: &mut Plane<T>,
    draws: &[RowDraw<T>],
) -> Result<Answer<T>, AllocError>
    ensures answer { let rows = table_of plane.old in IfOk result (λ answer.
        answer ≡ RowsWalked (length rows) (draws_answer rows (map side_of_row draws.now))) }
    ensures table { OnOk result (table_of plane.new ≡ rows_written (table_of plane.old) draws.now) }
    ensures err { OnErr result (plane.new ≡ plane.old) }
    ensures border { KeepsBorder plane.old plane.new }
{
    let (total, drawn) = walked(alloc, &mut plane.rows(), draws)?;
    write_rows(plane, draws);
    Ok(Answer::RowsWalked { total, drawn })
}

/// Overwrites the rows that `draws` take. Draws past the last row write nothing.
pub(crate) fn write_rows<T: Copy>(plane: &mut Plane<T>, draws: &[RowDraw<T>])
    ensures table { table_of plane.new ≡ rows_written (table_of plane.old) draws.now }
    ensures border { KeepsBorder plane.old plane.new }
{
    let mut walk = plane.rows_mut();
    for draw in draws {
        let row = match draw.side() {
            Side::Front => walk.next(),
            Side::Back => walk.next_back(),
        };
        if let Some(row) = row {
            overwrite_by(row, draw);
        }
    }
    held_rows_are_the_table::<T>();
}

/// Overwrites a row with the writes of `draw`.
pub(crate) fn overwrite_by<T: Copy>(row: &mut [T], draw: &RowDraw<T>)
    ensures { row.new ≡ row_written draw.now row.old }
{
    overwrite(row, draw.writes.as_slice());
}

//! Marks at the top of a chart, for values that are infinite: the PSNR of identical pictures.
ghost use Rattle.std.specs.Prelude.{◌≡◌, ◌++◌, ◌||◌, ◌<◌, ◌≤◌, [], OnOk, flat_map, if◌then◌else◌, length, string_bytes};
ghost use Rattle.std.specs.List.{range_with_len};
ghost use Rattle.v_frame_chart.specs.Endless.{endless_at, endless_head, endless_part, endless_row, endless_text, has_endless as the_endless, is_endless as the_test, mark_width as the_width, row_of as the_row, top_mark};

use crate::axes::Axis;
use crate::columns::start_of;
use crate::lines::push_path_end;
use crate::marks::middle;
use crate::places::Place;
use crate::words::color_of;
use std::alloc::AllocError;

/// Appends a row of marks above the axes for series `k`, one for each column with an infinite value, if the series has any.
pub(crate) fn push_endless(
    text: &mut String,
    values: &[f64],
    columns: usize,
    across: Axis,
    k: usize,
) -> Result<(), AllocError>
    requires { columns ≤ length values.now }
    ensures { OnOk result (string_bytes text.new
        ≡ string_bytes text.old ++ endless_text across values.now columns k) }
{
    if has_endless(values) {
        push_endless_row(text, values, columns, across, k)
    } else {
        Ok(())
    }
}

/// Appends a row of marks.
#[tactic(auto, using(crate::proofs::Appended::joins), unfolding(crate::specs::Endless::endless_row))]
fn push_endless_row(
    text: &mut String,
    values: &[f64],
    columns: usize,
    across: Axis,
    k: usize,
) -> Result<(), AllocError>
    requires { columns ≤ length values.now }
    ensures { OnOk result (string_bytes text.new
        ≡ string_bytes text.old ++ endless_row across values.now columns k) }
{
    push_endless_head(text, color_of(k), mark_width(columns))?;
    push_endless_marks(text, values, columns, across, row_of(k))?;
    push_path_end(text)?;
    Ok(())
}

/// Appends the start of a row.
#[tactic(auto, unfolding(crate::specs::Endless::endless_head))]
fn push_endless_head(text: &mut String, color: &str, width: usize) -> Result<(), AllocError>
    ensures { OnOk result (string_bytes text.new
        ≡ string_bytes text.old ++ endless_head color.now width) }
{
    write!(
        text,
        "<path fill=\"none\" stroke=\"{color}\" stroke-width=\"{width}\" d=\""
    )
}

/// Appends a mark for each column with an infinite value.
fn push_endless_marks(
    text: &mut String,
    values: &[f64],
    columns: usize,
    across: Axis,
    row: usize,
) -> Result<(), AllocError>
    requires { columns ≤ length values.now }
    ensures { OnOk result (string_bytes text.new ≡ string_bytes text.old
        ++ flat_map (endless_at across values.now columns row) (range_with_len 0 columns)) }
{
    for j in 0..columns {
        push_endless_column(text, values, columns, across, row, j)?;
    }
    Ok(())
}

/// Appends a mark for column `j`, if it has an infinite value.
fn push_endless_column(
    text: &mut String,
    values: &[f64],
    columns: usize,
    across: Axis,
    row: usize,
    j: usize,
) -> Result<(), AllocError>
    requires { j < columns }
    ensures { OnOk result (string_bytes text.new
        ≡ string_bytes text.old ++ endless_at across values.now columns row j) }
{
    let start = start_of(values.len(), columns, j);
    let end = start_of(values.len(), columns, j + 1);
    let x = Place::nearest(across.place(middle(values.len(), columns, j)));
    push_mark_if(text, has_endless(&values[start..end]), x, row)
}

/// Appends a mark, if there is one.
fn push_mark_if(text: &mut String, is_there: bool, x: Place, row: usize) -> Result<(), AllocError>
    ensures { OnOk result (string_bytes text.new
        ≡ string_bytes text.old ++ endless_part is_there x.tenths row) }
{
    if is_there {
        push_mark(text, x, row)
    } else {
        Ok(())
    }
}

/// Appends a mark.
#[tactic(auto, unfolding(crate::specs::Endless::top_mark))]
fn push_mark(text: &mut String, x: Place, row: usize) -> Result<(), AllocError>
    ensures { OnOk result (string_bytes text.new ≡ string_bytes text.old ++ top_mark x.tenths row) }
{
    write!(text, "M{x} {row}v3")
}

/// Returns the width of a mark: that of a column, and at most 12 pixels.
fn mark_width(columns: usize) -> usize
    ensures { result ≡ the_width columns }
{
    (848 / columns.max(1) + 1).min(12)
}

/// Returns the distance of a row of marks from the upper side. There are three rows.
fn row_of(k: usize) -> usize
    ensures { result ≡ the_row k }
{
    38 + 3 * (k % 3)
}

/// Returns whether one of the values is infinite.
pub(crate) fn has_endless(values: &[f64]) -> bool
    ensures { result ≡ the_endless values.now }
{
    let mut found = false;
    for value in values {
        found = either(found, is_endless(*value));
    }
    found
}

/// Returns whether one of two statements is true.
pub(crate) fn either(one: bool, other: bool) -> bool
    ensures { result ≡ (one || other) }
{
    one || other
}

/// Returns whether a value is infinite and above 0.
fn is_endless(value: f64) -> bool
    ensures { result ≡ the_test value }
{
    value > 0.0 && !value.is_finite()
}

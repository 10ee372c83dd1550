//! The marks of a series: one for each column that has a finite value.
ghost use Rattle.std.specs.Prelude.{◌≡◌, ◌<◌, IfOk, option_map};
ghost use Rattle.v_frame_chart.specs.Marks.{mark_of as the_mark, marks_of, middle_of};

use crate::axes::Axis;
use crate::columns::{Summary, start_of};
use std::alloc::{AllocError, Global};
use std::num::nearest_usize_to_f64;

/// The distance of a column from the left, and the distances of its values from the top, in pixels.
#[derive(Clone, Copy)]
pub(crate) struct Mark {
    pub x: f64,
    pub least: f64,
    pub mean: f64,
    pub most: f64,
}

/// Returns the marks of the columns of a series with `values` values.
pub(crate) fn marks(
    alloc: Global,
    summaries: &[Option<Summary>],
    values: usize,
    across: Axis,
    down: Axis,
) -> Result<Vec<Option<Mark>>, AllocError>
    ensures { IfOk result (λ found.
        found.items ≡ marks_of across down values summaries.now) }
{
    let mut found = Vec::new(alloc);
    let columns = summaries.len();
    for k in 0..columns {
        found.push(marked(summaries[k], middle(values, columns, k), across, down))?;
    }
    Ok(found)
}

/// Returns the frame in the middle of column `k`.
pub(crate) fn middle(values: usize, columns: usize, k: usize) -> f64
    requires { k < columns }
    ensures { result ≡ middle_of values columns k }
{
    let (start, end) = (
        start_of(values, columns, k),
        start_of(values, columns, k + 1),
    );
    (nearest_usize_to_f64(start) + (nearest_usize_to_f64(end) - 1.0)) / 2.0
}

/// Returns the mark of a column whose middle is at `frame`, or `None` if the column has no finite value.
fn marked(summary: Option<Summary>, frame: f64, across: Axis, down: Axis) -> Option<Mark>
    ensures { result ≡ option_map (the_mark across down frame) summary }
{
    match summary {
        Some(summary) => Some(Mark {
            x: across.place(frame),
            least: down.place(summary.least),
            mean: down.place(summary.mean),
            most: down.place(summary.most),
        }),
        None => None,
    }
}

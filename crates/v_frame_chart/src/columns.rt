//! The values of a series, summarized column by column.
ghost use Rattle.std.specs.Prelude.{◌≡◌, ◌+◌, ◌<◌, ◌≤◌, IfOk, false, min, length, true};
ghost use Rattle.std.specs.Float.Ieee.{inf};
ghost use Rattle.v_frame_chart.specs.Columns.{columns_of, greater, lesser, start_of as the_start, summary_of};

use std::alloc::{AllocError, Global};
use std::num::nearest_usize_to_f64;

/// The least, the mean and the greatest finite value of a column.
#[derive(Clone, Copy)]
pub struct Summary {
    /// The least value.
    pub least: f64,
    /// The mean.
    pub mean: f64,
    /// The greatest value.
    pub most: f64,
}

/// Returns the summaries of at most `room` columns of a series. There are no more columns than values.
///
/// Column `k` of `n` begins at the value with the index `k * length / n`. A column without a finite value is `None`.
///
/// # Errors
///
/// Returns [`AllocError`] if there is not enough memory.
pub fn summaries(
    alloc: Global,
    values: &[f64],
    room: usize,
) -> Result<Vec<Option<Summary>>, AllocError>
    ensures { IfOk result (λ found. found.items ≡ columns_of values.now room) }
{
    let columns = values.len().min(room);
    let mut found = Vec::new(alloc);
    for k in 0..columns {
        let start = start_of(values.len(), columns, k);
        let end = start_of(values.len(), columns, k + 1);
        found.push(summarized(&values[start..end]))?;
    }
    Ok(found)
}

/// Returns the index of the first value of column `k` of `columns`.
pub(crate) fn start_of(values: usize, columns: usize, k: usize) -> usize
    requires some { 0 < columns }
    requires within { k ≤ columns }
    ensures value { result ≡ the_start values columns k }
    ensures bound { result ≤ values }
{
    (k as u128 * values as u128 / columns as u128) as usize
}

/// Returns the summary of the finite values, or `None` if there are none.
fn summarized(values: &[f64]) -> Option<Summary>
    ensures { result ≡ summary_of values.now }
{
    let (mut least, mut most) = (infinity(), -infinity());
    let (mut sum, mut count) = (0.0, 0);
    for value in values {
        if value.is_finite() {
            least = lesser_of(least, *value);
            most = greater_of(most, *value);
            sum += *value;
            count += 1;
        }
    }
    if count == 0 {
        return None;
    }
    Some(Summary {
        least,
        mean: sum / nearest_usize_to_f64(count),
        most,
    })
}

/// Returns the lesser of two numbers.
pub(crate) fn lesser_of(x: f64, y: f64) -> f64
    ensures { result ≡ lesser x y }
{
    if y < x { y } else { x }
}

/// Returns the greater of two numbers.
pub(crate) fn greater_of(x: f64, y: f64) -> f64
    ensures { result ≡ greater x y }
{
    if x < y { y } else { x }
}

/// Returns infinity.
pub(crate) fn infinity() -> f64
    ensures { result ≡ inf false }
{
    f64::INFINITY
}

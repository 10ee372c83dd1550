//! Measures of the planes of a frame, and numbers in texts.
ghost use Rattle.std.specs.Prelude.{◌≡◌, ◌++◌, decimal, string_bytes, OnOk};
ghost use Rattle.yuv_reports.specs.Sums.{number_after};

use std::alloc::AllocError;
use v_frame_measures::FrameMeasure;

/// Returns the values of a measure in the order of the reports: all planes together, Y, U and V.
pub(crate) fn in_order(measure: &FrameMeasure) -> [Option<f64>; 4] {
    [Some(measure.all), Some(measure.y), measure.u, measure.v]
}

/// Appends a number between two texts.
pub(crate) fn push_number(
    text: &mut String,
    before: &str,
    number: u128,
    after: &str,
) -> Result<(), AllocError>
    ensures { OnOk result (string_bytes text.new
        ≡ string_bytes text.old ++ (before.now ++ (decimal number ++ after.now))) }
{
    write!(text, "{before}{number}{after}")
}

/// Appends a sum after a text, if there is one.
pub(crate) fn push_sum(text: &mut String, before: &str, sum: Option<u128>) -> Result<(), AllocError>
    ensures { OnOk result (string_bytes text.new
        ≡ string_bytes text.old ++ number_after before.now sum) }
{
    match sum {
        Some(sum) => write!(text, "{before}{sum}"),
        None => Ok(()),
    }
}

/// Appends a measure between two texts, with all its digits.
pub(crate) fn push_value(
    text: &mut String,
    before: &str,
    value: f64,
    after: &str,
) -> Result<(), AllocError> {
    write!(text, "{before}{value}{after}")
}

//! Comma-separated values: a head, and a row for each frame. The cells of a missing plane are empty. Only the other forms report on all
//! frames together, so that each row has the same columns.
ghost use Rattle.std.specs.Prelude.{◌≡◌, ◌++◌, [], if◌then◌else◌, is_some, string_bytes, OnOk};
ghost use Rattle.yuv_reports.specs.Frames.{AppendsFrame};
ghost use Rattle.yuv_reports.specs.Sums.{head_row, row_end, sum_cell};
ghost use Rattle.yuv_reports.specs.Texts.{EndsWith};
ghost use Rattle.yuv_reports.specs.declared.comparison.ReportForm.{ReportForm};

use crate::comparison::FrameMeasures;
use crate::planes::{in_order, push_number, push_value};
use std::alloc::{AllocError, Global};
use v_frame_formats::PlaneSums;
use v_frame_measures::FrameMeasure;

/// Appends the names of the columns.
pub fn push_head(text: &mut String, measures: &FrameMeasures) -> Result<(), AllocError>
    ensures { OnOk result (string_bytes text.new ≡ string_bytes text.old
        ++ head_row (is_some measures.now.ssim) (is_some measures.now.sums)) }
{
    text.push_str("frame,mse,mse_y,mse_u,mse_v,psnr,psnr_y,psnr_u,psnr_v")?;
    push_where(text, measures.ssim.is_some(), ",ssim,ssim_y,ssim_u,ssim_v")?;
    push_where(text, measures.sums.is_some(), ",sse_y,sse_u,sse_v")?;
    text.push('\n')
}

/// Appends a text if a condition is true.
fn push_where(text: &mut String, holds: bool, part: &str) -> Result<(), AllocError>
    ensures { OnOk result (string_bytes text.new
        ≡ string_bytes text.old ++ (if holds then part.now else [])) }
{
    if holds { text.push_str(part) } else { Ok(()) }
}

/// Appends the row of a frame. The values are first collected in a separate text, because contracts do not describe a text after a
/// float was written to it.
pub fn push_frame(
    alloc: Global,
    text: &mut String,
    number: u64,
    measures: &FrameMeasures,
) -> Result<(), AllocError>
    ensures { OnOk result (AppendsFrame ReportForm.Csv number measures.now.sums
        (string_bytes text.old) (string_bytes text.new)) }
{
    let mut values = String::new(alloc);
    push_measures(&mut values, measures)?;
    push_number(text, "", u128::from(number), ",")?;
    text.push_str(values.as_str())
}

/// Appends the measures of a row, with commas between them.
fn push_measures(text: &mut String, measures: &FrameMeasures) -> Result<(), AllocError>
    ensures { OnOk result (EndsWith (row_end measures.now.sums) (string_bytes text.new)) }
{
    push_values(text, "", &measures.mse)?;
    push_values(text, ",", &measures.psnr)?;
    if let Some(ssim) = &measures.ssim {
        push_values(text, ",", ssim)?;
    }
    end_row(text, &measures.sums)
}

/// Appends the sums of a row, if they are reported, and ends the row.
fn end_row(text: &mut String, sums: &Option<PlaneSums>) -> Result<(), AllocError>
    ensures { OnOk result (string_bytes text.new ≡ string_bytes text.old ++ row_end sums.now) }
{
    let Some(sums) = sums else {
        return text.push('\n');
    };
    push_sum_cell(text, Some(sums.y))?;
    push_sum_cell(text, sums.u)?;
    push_sum_cell(text, sums.v)?;
    text.push('\n')
}

/// Appends a comma, and a sum if there is one.
fn push_sum_cell(text: &mut String, sum: Option<u128>) -> Result<(), AllocError>
    ensures { OnOk result (string_bytes text.new ≡ string_bytes text.old ++ sum_cell sum) }
{
    match sum {
        Some(sum) => push_number(text, ",", sum, ""),
        None => text.push(','),
    }
}

/// Appends the four values of a measure after a text, with commas between them.
fn push_values(text: &mut String, before: &str, values: &FrameMeasure) -> Result<(), AllocError> {
    let values = in_order(values);
    text.push_str(before)?;
    for place in 0..4 {
        push_where(text, place > 0, ",")?;
        if let Some(value) = values[place] {
            push_value(text, "", value, "")?;
        }
    }
    Ok(())
}

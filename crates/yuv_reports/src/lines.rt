//! Lines for people.
ghost use Rattle.std.specs.Prelude.{◌≡◌, ◌++◌, codes, string_bytes, OnOk};
ghost use Rattle.yuv_reports.specs.Frames.{AppendsFrame};
ghost use Rattle.yuv_reports.specs.Sums.{comparison_end, difference_line, frame_end, longer_line, sums_after, sums_line};
ghost use Rattle.yuv_reports.specs.Texts.{EndsWith};
ghost use Rattle.yuv_reports.specs.declared.comparison.ReportForm.{ReportForm};

use crate::comparison::{Comparison, FrameMeasures, Longer};
use crate::planes::{in_order, push_number, push_sum};
use std::alloc::{AllocError, Global};
use v_frame_formats::{PixelDifference, PlaneSums};
use v_frame_measures::FrameMeasure;

/// The names of all planes together and of each plane, in the line of a frame and in a line on all frames.
const SHORT_NAMES: [&str; 4] = ["avg", "y", "u", "v"];

const LONG_NAMES: [&str; 4] = ["all planes", "Y", "U", "V"];

/// Appends the line of a frame: errors and ratios in the form of ffmpeg's filter `psnr`, then other measures. The values are first
/// collected in a separate text, because contracts do not describe a text after a float was written to it.
pub fn push_frame(
    alloc: Global,
    text: &mut String,
    number: u64,
    measures: &FrameMeasures,
) -> Result<(), AllocError>
    ensures { OnOk result (AppendsFrame ReportForm.Lines number measures.now.sums
        (string_bytes text.old) (string_bytes text.new)) }
{
    let mut values = String::new(alloc);
    push_measures(&mut values, measures)?;
    push_number(text, "n:", u128::from(number), " ")?;
    text.push_str(values.as_str())
}

/// Appends the measures of a frame, and ends its line.
fn push_measures(text: &mut String, measures: &FrameMeasures) -> Result<(), AllocError>
    ensures { OnOk result (EndsWith (frame_end measures.now.sums) (string_bytes text.new)) }
{
    push_hundredths(text, "mse", &measures.mse)?;
    text.push(' ')?;
    push_hundredths(text, "psnr", &measures.psnr)?;
    if let Some(ssim) = &measures.ssim {
        push_similarities(text, ssim)?;
    }
    end_frame(text, &measures.sums)
}

/// Appends the end of the line of a frame.
fn end_frame(text: &mut String, sums: &Option<PlaneSums>) -> Result<(), AllocError>
    ensures { OnOk result (string_bytes text.new
        ≡ string_bytes text.old ++ frame_end sums.now) }
{
    let Some(sums) = sums else {
        return text.push('\n');
    };
    push_sums(text, " sse_y:", " sse_u:", " sse_v:", sums)?;
    text.push('\n')
}

/// Appends the values of a measure with two decimals, each with its plane, and spaces between them.
fn push_hundredths(
    text: &mut String,
    measure: &str,
    values: &FrameMeasure,
) -> Result<(), AllocError> {
    let values = in_order(values);
    for place in 0..4 {
        if let Some(value) = values[place] {
            let name = SHORT_NAMES[place];
            let space = if place == 0 { "" } else { " " };
            write!(text, "{space}{measure}_{name}:{value:.2}")?;
        }
    }
    Ok(())
}

/// Appends structural similarities with six decimals, each with its plane.
fn push_similarities(text: &mut String, ssim: &FrameMeasure) -> Result<(), AllocError> {
    let values = in_order(ssim);
    for place in 0..4 {
        if let Some(value) = values[place] {
            let name = SHORT_NAMES[place];
            write!(text, " ssim_{name}:{value:.6}")?;
        }
    }
    Ok(())
}

/// Appends sums, each after its text.
fn push_sums(
    text: &mut String,
    y: &str,
    u: &str,
    v: &str,
    sums: &PlaneSums,
) -> Result<(), AllocError>
    ensures { OnOk result (string_bytes text.new
        ≡ string_bytes text.old ++ sums_after y.now u.now v.now sums.now) }
{
    push_sum(text, y, Some(sums.y))?;
    push_sum(text, u, sums.u)?;
    push_sum(text, v, sums.v)
}

/// Appends the report on all frames: a line for all planes and one for each plane, then the other results.
pub fn push_comparison(text: &mut String, found: &Comparison) -> Result<(), AllocError>
    ensures { OnOk result (EndsWith (comparison_end found.now) (string_bytes text.new)) }
{
    let frames = found.frames;
    writeln!(text, "frames: {frames}")?;
    push_planes(text, &found.measures.mse, &found.measures.psnr)?;
    if let Some(ssim) = &found.measures.ssim {
        push_ssim(text, ssim)?;
    }
    push_sums_line(text, &found.measures.sums)?;
    push_difference(text, &found.difference)?;
    push_longer(text, found.longer)
}

/// Appends the line of the sums, if they are reported.
fn push_sums_line(text: &mut String, sums: &Option<PlaneSums>) -> Result<(), AllocError>
    ensures { OnOk result (string_bytes text.new
        ≡ string_bytes text.old ++ sums_line sums.now) }
{
    let Some(sums) = sums else {
        return Ok(());
    };
    text.push_str("squared errors:")?;
    push_sums(text, " Y ", ", U ", ", V ", sums)?;
    text.push('\n')
}

/// Appends the line that states which stream has more frames, if one has.
fn push_longer(text: &mut String, longer: Option<Longer>) -> Result<(), AllocError>
    ensures { OnOk result (string_bytes text.new ≡ string_bytes text.old ++ longer_line longer) }
{
    text.push_str(match longer {
        Some(Longer::First) => "length: the first stream has more frames\n",
        Some(Longer::Second) => "length: the second stream has more frames\n",
        None => "",
    })
}

/// Appends the error and the ratio of all planes together and of each plane.
fn push_planes(
    text: &mut String,
    mse: &FrameMeasure,
    psnr: &FrameMeasure,
) -> Result<(), AllocError> {
    let (errors, ratios) = (in_order(mse), in_order(psnr));
    for place in 0..4 {
        if let (Some(error), Some(ratio)) = (errors[place], ratios[place]) {
            let name = LONG_NAMES[place];
            writeln!(text, "{name}: mse {error:.2}, psnr {ratio:.2}")?;
        }
    }
    Ok(())
}

/// Appends the line of the structural similarities.
fn push_ssim(text: &mut String, ssim: &FrameMeasure) -> Result<(), AllocError> {
    let values = in_order(ssim);
    text.push_str("ssim:")?;
    for place in 0..4 {
        if let Some(value) = values[place] {
            let name = LONG_NAMES[place];
            let comma = if place == 0 { "" } else { "," };
            write!(text, "{comma} {name} {value:.6}")?;
        }
    }
    text.push('\n')
}

/// Appends the line that states the first difference of the streams, if there is one.
fn push_difference(
    text: &mut String,
    difference: &Option<(u64, PixelDifference)>,
) -> Result<(), AllocError>
    ensures { OnOk result (string_bytes text.new
        ≡ string_bytes text.old ++ difference_line difference.now) }
{
    let Some((frame, found)) = *difference else {
        return text.push_str("first difference: none\n");
    };
    let PixelDifference {
        component,
        x,
        y,
        first,
        second,
    } = found;
    let plane = component.letter();
    writeln!(
        text,
        "first difference: frame {frame}, plane {plane}, column {x}, row {y}, {first} and {second}"
    )
}

//! One JSON object: a list of frames, and a summary. JSON has no infinity: a ratio that is infinite is `null`.
ghost use Rattle.std.specs.Prelude.{◌≡◌, ◌++◌, codes, string_bytes, OnOk};
ghost use Rattle.yuv_reports.specs.Frames.{difference_object, json_end, longer_member, no_frames, place_members, sample_object, AppendsFrame};
ghost use Rattle.yuv_reports.specs.Sums.{members_end};
ghost use Rattle.yuv_reports.specs.Texts.{EndsWith};
ghost use Rattle.yuv_reports.specs.declared.comparison.ReportForm.{ReportForm};

use crate::comparison::{Comparison, FrameMeasures, Longer};
use crate::planes::{in_order, push_number, push_sum, push_value};
use crate::pool::Pool;
use std::alloc::{AllocError, Global};
use v_frame_formats::{PixelDifference, PlaneSums};
use v_frame_measures::FrameMeasure;

/// The keys of the values of a measure, with the punctuation before them.
const KEYS: [&str; 4] = ["{\"all\": ", ", \"y\": ", ", \"u\": ", ", \"v\": "];

/// Appends the object of a frame, without the comma or the line feed after it. The values are first collected in a separate text,
/// because contracts do not describe a text after a float was written to it.
pub fn push_frame(
    alloc: Global,
    text: &mut String,
    number: u64,
    measures: &FrameMeasures,
) -> Result<(), AllocError>
    ensures { OnOk result (AppendsFrame ReportForm.Json number measures.now.sums
        (string_bytes text.old) (string_bytes text.new)) }
{
    let mut values = String::new(alloc);
    push_members(&mut values, measures)?;
    push_number(text, "    {\"frame\": ", u128::from(number), ", ")?;
    text.push_str(values.as_str())
}

/// Appends the measures of a frame, and ends its object.
fn push_members(text: &mut String, measures: &FrameMeasures) -> Result<(), AllocError>
    ensures { OnOk result (EndsWith (members_end measures.now.sums ++ codes "}")
        (string_bytes text.new)) }
{
    push_measures(text, ", ", measures)?;
    text.push('}')
}

/// Appends the measures, each as a member, with this text between two of them.
fn push_measures(
    text: &mut String,
    between: &str,
    measures: &FrameMeasures,
) -> Result<(), AllocError>
    ensures { OnOk result (EndsWith (members_end measures.now.sums) (string_bytes text.new)) }
{
    text.push_str("\"mse\": ")?;
    push_values(text, &measures.mse)?;
    text.push_str(between)?;
    text.push_str("\"psnr\": ")?;
    push_values(text, &measures.psnr)?;
    if let Some(ssim) = &measures.ssim {
        text.push_str(between)?;
        text.push_str("\"ssim\": ")?;
        push_values(text, ssim)?;
    }
    push_sums(text, between, &measures.sums)
}

/// Appends the object of a measure.
fn push_values(text: &mut String, values: &FrameMeasure) -> Result<(), AllocError> {
    let values = in_order(values);
    for place in 0..4 {
        if let Some(value) = values[place] {
            text.push_str(KEYS[place])?;
            push_finite(text, value)?;
        }
    }
    text.push('}')
}

/// Appends a number, or `null` if JSON cannot represent it.
fn push_finite(text: &mut String, value: f64) -> Result<(), AllocError> {
    if value.is_finite() {
        push_value(text, "", value, "")
    } else {
        text.push_str("null")
    }
}

/// Appends the object of the sums after a text, if they are reported.
fn push_sums(text: &mut String, between: &str, sums: &Option<PlaneSums>) -> Result<(), AllocError>
    ensures { OnOk result (EndsWith (members_end sums.now) (string_bytes text.new)) }
{
    let Some(sums) = sums else {
        return Ok(());
    };
    text.push_str(between)?;
    push_number(text, "\"squared_errors\": {\"y\": ", sums.y, "")?;
    push_sum(text, ", \"u\": ", sums.u)?;
    push_sum(text, ", \"v\": ", sums.v)?;
    text.push('}')
}

/// Appends the member that states why a stream could not be read further.
pub fn push_error(text: &mut String, error: &str) -> Result<(), AllocError> {
    text.push_str("  \"error\": \"")?;
    for letter in error.chars() {
        push_escaped(text, letter)?;
    }
    text.push_str("\",\n")
}

/// Appends the count 0 and the end of the object.
pub fn push_no_frames(text: &mut String) -> Result<(), AllocError>
    ensures { OnOk result (EndsWith no_frames (string_bytes text.new)) }
{
    text.push_str("  \"count\": 0\n}\n")
}

/// Appends a character of a string. A control character becomes a space.
fn push_escaped(text: &mut String, letter: char) -> Result<(), AllocError> {
    match letter {
        '"' => text.push_str("\\\""),
        '\\' => text.push_str("\\\\"),
        _ if u32::from(letter) < 32 => text.push(' '),
        _ => text.push(letter),
    }
}

/// Appends the members after the list of frames, and the end of the object.
pub fn push_summary(
    text: &mut String,
    found: &Comparison,
    psnr: &Pool,
    ssim: &Pool,
) -> Result<(), AllocError>
    ensures { OnOk result (EndsWith (json_end found.now.difference found.now.longer) (string_bytes text.new)) }
{
    let frames = found.frames;
    write!(text, "  \"count\": {frames},\n  ")?;
    push_measures(text, ",\n  ", &found.measures)?;
    text.push_str(",\n  \"psnr_by_frame\": ")?;
    push_pool(text, psnr)?;
    if found.measures.ssim.is_some() {
        text.push_str(",\n  \"ssim_by_frame\": ")?;
        push_pool(text, ssim)?;
    }
    push_end(text, found)
}

/// Appends the first difference and the longer stream, and the end of the object.
fn push_end(text: &mut String, found: &Comparison) -> Result<(), AllocError>
    ensures { OnOk result (string_bytes text.new ≡ string_bytes text.old ++ json_end found.now.difference found.now.longer) }
{
    text.push_str(",\n  \"first_difference\": ")?;
    push_difference(text, &found.difference)?;
    push_longer(text, found.longer)
}

/// Appends which stream has more frames, and the end of the object.
fn push_longer(text: &mut String, longer: Option<Longer>) -> Result<(), AllocError>
    ensures { OnOk result (string_bytes text.new ≡ string_bytes text.old ++ longer_member longer) }
{
    text.push_str(match longer {
        Some(Longer::First) => ",\n  \"longer\": \"first\"\n}\n",
        Some(Longer::Second) => ",\n  \"longer\": \"second\"\n}\n",
        None => ",\n  \"longer\": null\n}\n",
    })
}

/// Appends the object of a measure over all frames, with `null` if there was no frame.
fn push_pool(text: &mut String, pool: &Pool) -> Result<(), AllocError> {
    let pooled = (pool.mean(), pool.harmonic_mean(), pool.least());
    let (Some(mean), Some(harmonic_mean), Some((least, frame))) = pooled else {
        return text.push_str("null");
    };
    text.push_str("{\"mean\": ")?;
    push_finite(text, mean)?;
    text.push_str(", \"harmonic_mean\": ")?;
    push_finite(text, harmonic_mean)?;
    text.push_str(", \"minimum\": ")?;
    push_finite(text, least)?;
    push_number(text, ", \"frame_of_the_minimum\": ", u128::from(frame), "}")
}

/// Appends the object of the first sample that differs, or `null` if no sample differs.
fn push_difference(
    text: &mut String,
    difference: &Option<(u64, PixelDifference)>,
) -> Result<(), AllocError>
    ensures { OnOk result (string_bytes text.new
        ≡ string_bytes text.old ++ difference_object difference.now) }
{
    match difference {
        Some((frame, found)) => push_sample(text, *frame, found),
        None => text.push_str("null"),
    }
}

/// Appends the object of a sample that differs, in the frame of this number.
fn push_sample(text: &mut String, frame: u64, found: &PixelDifference) -> Result<(), AllocError>
    ensures { OnOk result (string_bytes text.new
        ≡ string_bytes text.old ++ sample_object frame found.now) }
{
    let PixelDifference {
        component,
        x,
        y,
        first,
        second,
    } = *found;
    push_place(text, frame, component.letter(), x, y)?;
    write!(text, "\"first\": {first}, \"second\": {second}}}")
}

/// Appends the beginning of an object: the place of a sample.
fn push_place(
    text: &mut String,
    frame: u64,
    plane: &str,
    x: usize,
    y: usize,
) -> Result<(), AllocError>
    ensures { OnOk result (string_bytes text.new
        ≡ string_bytes text.old ++ place_members frame plane.now x y) }
{
    write!(
        text,
        "{{\"frame\": {frame}, \"plane\": \"{plane}\", \"column\": {x}, \"row\": {y}, "
    )
}

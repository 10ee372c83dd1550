//! The axis of frames: its marks are the frames whose numbers are multiples of a step.
ghost use Rattle.std.specs.Prelude.{◌≡◌, ◌+◌, ◌*◌, ◌++◌, ◌<◌, ◌≤◌, ◌^◌, OnOk, flat_map, string_bytes};
ghost use Rattle.v_frame_chart.specs.Frames.{across_of as the_across, axis_lines, first_mark as the_first_mark, frame_mark, frame_words, frames_text, marked_frames, mark_count as the_mark_count, round_number as the_round_number, IsFrameStep};

use crate::axes::Axis;
use crate::decimals::tens;
use crate::places::Place;
use std::alloc::AllocError;
use std::num::nearest_u64_to_f64;

/// Returns the axis from the first frame to the frame `span` frames after it.
#[tactic(auto, unfolding(crate::specs::Frames::across_of))]
pub(crate) fn across_of(span: u64) -> Axis
    ensures { result ≡ the_across span }
{
    Axis {
        low: 0.0,
        high: nearest_u64_to_f64(span),
        start: nearest_u64_to_f64(76),
        end: nearest_u64_to_f64(924),
    }
}

/// Returns the least of 1, 2, 5, 10, 20, 50 and so on that fits at most eight times into a span.
pub(crate) fn frame_step(span: u64) -> u64
    requires { span < 2 ^ 63 }
    ensures step { IsFrameStep span result }
    ensures positive { 0 < result }
{
    for k in 0..ROUND_NUMBERS {
        let step = round_number(k);
        if span.div_ceil(8) <= step {
            return step;
        }
    }
    span
}

/// The number of steps 1, 2, 5, 10 and so on, up to an eighth of the greatest span.
const ROUND_NUMBERS: u32 = 57;

/// Returns one of the numbers 1, 2, 5, 10 and so on.
#[tactic(auto, unfolding(crate::specs::Frames::round_number))]
fn round_number(k: u32) -> u64
    requires { k < 57 }
    ensures value { result ≡ the_round_number k }
    ensures positive { 0 < result }
{
    let unit = tens(k / 3);
    match k % 3 {
        0 => unit,
        1 => unit * 2,
        _ => unit * 5,
    }
}

/// Appends both axes, and a mark and the number of each frame, up to `last` after the first, whose number is a multiple of `step`. The
/// axis extends over `span` frames after the first, which is more than `last` if there is only one frame.
#[tactic(auto, using(crate::proofs::Appended::joins), unfolding(crate::specs::Frames::frames_text))]
pub(crate) fn push_frames(
    text: &mut String,
    first: u64,
    span: u64,
    last: u64,
    step: u64,
) -> Result<(), AllocError>
    requires some { 0 < step }
    requires bound { last < 2 ^ 63 }
    ensures { OnOk result (string_bytes text.new ≡ string_bytes text.old
        ++ frames_text first span last step) }
{
    push_axis_lines(text)?;
    push_frame_marks(text, first, span, last, step)?;
    Ok(())
}

/// Appends both axes.
#[tactic(auto, unfolding(crate::specs::Frames::axis_lines))]
fn push_axis_lines(text: &mut String) -> Result<(), AllocError>
    ensures { OnOk result (string_bytes text.new ≡ string_bytes text.old ++ axis_lines) }
{
    text.push_str("<path d=\"M76 50V160H924\" fill=\"none\" stroke=\"#333333\"/>\n")
}

/// Appends a mark and the number of each frame whose number is a multiple of the step.
fn push_frame_marks(
    text: &mut String,
    first: u64,
    span: u64,
    last: u64,
    step: u64,
) -> Result<(), AllocError>
    requires some { 0 < step }
    requires bound { last < 2 ^ 63 }
    ensures { OnOk result (string_bytes text.new ≡ string_bytes text.old
        ++ flat_map (frame_mark (the_across span) first) (marked_frames first last step)) }
{
    let across = across_of(span);
    let start = first_mark(first, step);
    for k in 0..mark_count(first, last, step) {
        push_frame_mark(text, across, first, start + k * step)?;
    }
    Ok(())
}

/// Returns the distance in frames from the first frame to the first multiple of the step.
#[tactic(auto, unfolding(crate::specs::Frames::first_mark))]
fn first_mark(first: u64, step: u64) -> u64
    requires { 0 < step }
    ensures value { result ≡ the_first_mark first step }
    ensures bound { result < step }
{
    (step - first % step) % step
}

/// Returns the number of multiples of the step.
#[tactic(auto, unfolding(crate::specs::Frames::mark_count))]
fn mark_count(first: u64, span: u64, step: u64) -> u64
    requires some { 0 < step }
    requires bound { span < 2 ^ 63 }
    ensures { result ≡ the_mark_count first span step }
{
    let start = first_mark(first, step);
    if start <= span {
        (span - start) / step + 1
    } else {
        0
    }
}

/// Appends the mark and the number of the frame `index` frames after the first.
#[tactic(auto, unfolding(crate::specs::Frames::frame_mark))]
fn push_frame_mark(
    text: &mut String,
    across: Axis,
    first: u64,
    index: u64,
) -> Result<(), AllocError>
    ensures { OnOk result (string_bytes text.new
        ≡ string_bytes text.old ++ frame_mark across first index) }
{
    let x = Place::nearest(across.place(nearest_u64_to_f64(index)));
    let number = u128::from(first) + u128::from(index);
    push_frame_words(text, x, number)
}

/// Appends a mark and a number.
#[tactic(auto, unfolding(crate::specs::Frames::frame_words))]
fn push_frame_words(text: &mut String, x: Place, number: u128) -> Result<(), AllocError>
    ensures { OnOk result (string_bytes text.new
        ≡ string_bytes text.old ++ frame_words x.tenths number) }
{
    write!(
        text,
        "<path d=\"M{x} 160V165\" stroke=\"#333333\"/>\n\
         <text x=\"{x}\" y=\"177\" text-anchor=\"middle\">{number}</text>\n"
    )
}

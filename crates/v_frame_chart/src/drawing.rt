//! The picture: axes, grid, lines and legend, as SVG.
ghost use Rattle.std.specs.Prelude.{◌≡◌, ◌++◌, ◌<◌, ◌^◌, IfOk, OnErr, OnOk, length, string_bytes};
ghost use Rattle.std.specs.List.{enumerate_from};
ghost use Rattle.v_frame_chart.specs.Charts.{all_series, band_note, chart_text, endless_note, frames_of as the_frames, has_endless_series as the_endless, note_text, notes_text, series_text, span_of as the_span, AppendsChart, AppendsPartOfChart, IsChart};

use crate::columns::summaries;
use crate::endless::{either, has_endless, push_endless};
use crate::frames::{across_of, frame_step, push_frames};
use crate::grid::push_grid;
use crate::lines::push_drawn;
use crate::marks::marks;
use crate::room::scale_of;
use crate::scale::Scale;
use crate::words::{color_of, push_closing, push_head, push_legend, push_text};
use std::alloc::{AllocError, Global};
use std::io;
use v_frame_bytes::send;

/// A number for each frame of a stream, and a name.
#[derive(Clone, Copy)]
pub struct Series<'a> {
    /// The name, for the legend.
    pub name: &'a str,
    /// The numbers, one for each frame. A number that is infinite or not a number leaves a gap in the line. Plus infinity has a
    /// mark at the top.
    pub values: &'a [f64],
}

/// A chart of series over the same frames.
#[derive(Clone, Copy)]
pub struct Chart<'a> {
    /// The title.
    pub title: &'a str,
    /// The unit of the numbers, as "dB".
    pub unit: &'a str,
    /// The number of the first frame; most programs count from 0 or 1.
    pub first: u64,
    /// The series, in the order of their colors.
    pub series: &'a [Series<'a>],
}

/// The number of columns of pixels between the left and the right end of the axis of frames.
const COLUMNS: usize = 848;

/// Writes a chart as SVG.
///
/// # Errors
///
/// Returns the error of the writer, even if a write was interrupted, or `WriteZero` if the writer accepts no bytes; a part of the
/// file is then written. Returns `OutOfMemory` if there is not enough memory; nothing is then written.
pub fn write_svg<W: io::Write>(alloc: Global, out: &mut W, chart: &Chart<'_>) -> io::Result<()>
    ensures ok { OnOk result (AppendsChart (W.contents out.old) (W.contents out.new) chart.now) }
    ensures error { OnErr result
        (AppendsPartOfChart (W.contents out.old) (W.contents out.new) chart.now) }
{
    let scale = scale_of(chart.series);
    let step = frame_step(span_of(chart.series));
    let mut text = String::new(alloc);
    push_chart(alloc, &mut text, chart, &scale, step)?;
    send(out, text.as_bytes())?;
    Ok(())
}

/// Returns a chart as SVG.
///
/// # Errors
///
/// Returns [`AllocError`] if there is not enough memory.
pub fn svg(alloc: Global, chart: &Chart<'_>) -> Result<String, AllocError>
    ensures { IfOk result (λ text. IsChart chart.now (string_bytes text)) }
{
    let scale = scale_of(chart.series);
    let step = frame_step(span_of(chart.series));
    let mut text = String::new(alloc);
    push_chart(alloc, &mut text, chart, &scale, step)?;
    Ok(text)
}

/// Appends a chart over these axes.
#[tactic(auto, using(crate::proofs::Appended::joins), unfolding(crate::specs::Charts::chart_text))]
fn push_chart(
    alloc: Global,
    text: &mut String,
    chart: &Chart<'_>,
    scale: &Scale,
    step: u64,
) -> Result<(), AllocError>
    requires { 0 < step }
    ensures { OnOk result (string_bytes text.new
        ≡ string_bytes text.old ++ chart_text chart.now scale.now step) }
{
    let span = span_of(chart.series);
    let last = frames_of(chart.series).saturating_sub(1) as u64;
    push_head(text, chart.title, chart.unit)?;
    push_grid(text, scale)?;
    push_frames(text, chart.first, span, last, step)?;
    push_all_series(alloc, text, chart.series, scale, span)?;
    push_legend(text, chart.series)?;
    push_notes(text, chart.series)?;
    push_closing(text)?;
    Ok(())
}

/// Appends notes on the marks at the top and on the bands, if there are any.
#[tactic(auto, using(crate::proofs::Appended::joins), unfolding(crate::specs::Charts::notes_text))]
fn push_notes(text: &mut String, series: &[Series<'_>]) -> Result<(), AllocError>
    ensures { OnOk result (string_bytes text.new ≡ string_bytes text.old ++ notes_text series.now) }
{
    push_endless_note(text, series)?;
    push_band_note(text, series)?;
    Ok(())
}

/// Appends a note on the marks at the top, if there are any.
#[tactic(auto, unfolding(crate::specs::Charts::endless_note))]
fn push_endless_note(text: &mut String, series: &[Series<'_>]) -> Result<(), AllocError>
    ensures { OnOk result (string_bytes text.new ≡ string_bytes text.old ++ endless_note series.now) }
{
    push_note_if(
        text,
        has_endless_series(series),
        ENDLESS_PLACE,
        ENDLESS_NOTE,
    )
}

/// Appends a note on the bands, if there are any.
#[tactic(auto, unfolding(crate::specs::Charts::band_note))]
fn push_band_note(text: &mut String, series: &[Series<'_>]) -> Result<(), AllocError>
    ensures { OnOk result (string_bytes text.new ≡ string_bytes text.old ++ band_note series.now) }
{
    push_note_if(text, COLUMNS < frames_of(series), BAND_PLACE, BAND_NOTE)
}

/// The attributes of the note on the marks at the top.
const ENDLESS_PLACE: &str = "x=\"924\" y=\"16\" text-anchor=\"end\"";

/// The note on the marks at the top.
const ENDLESS_NOTE: &str = "marks at the top: infinite, as of identical frames";

/// The attributes of the note on the bands.
const BAND_PLACE: &str = "x=\"924\" y=\"33\" text-anchor=\"end\"";

/// The note on the bands.
const BAND_NOTE: &str = "line: mean; band: minimum to maximum";

/// Appends a note, if it applies.
fn push_note_if(text: &mut String, applies: bool, place: &str, note: &str) -> Result<(), AllocError>
    ensures { OnOk result (string_bytes text.new
        ≡ string_bytes text.old ++ note_text applies place.now note.now) }
{
    if applies {
        push_text(text, place, note)
    } else {
        Ok(())
    }
}

/// Returns whether one of the series has an infinite value.
fn has_endless_series(series: &[Series<'_>]) -> bool
    ensures { result ≡ the_endless series.now }
{
    let mut found = false;
    for one in series {
        found = either(found, has_endless(one.values));
    }
    found
}

/// Returns the number of frames on the axis after the first one, or 1 if there are fewer.
#[tactic(auto, unfolding(crate::specs::Charts::span_of))]
fn span_of(series: &[Series<'_>]) -> u64
    ensures value { result ≡ the_span series.now }
    ensures bound { result < 2 ^ 63 }
{
    frames_of(series).saturating_sub(1).max(1) as u64
}

/// Returns the number of frames of the longest series.
#[tactic(auto, unfolding(crate::specs::Charts::frames_of))]
fn frames_of(series: &[Series<'_>]) -> usize
    ensures value { result ≡ the_frames series.now }
    ensures bound { result < 2 ^ 63 }
{
    let mut frames = 0;
    for one in series {
        frames = one.values.len().max(frames);
    }
    frames
}

/// Appends the series in their order.
#[tactic(auto, unfolding(crate::specs::Charts::all_series))]
fn push_all_series(
    alloc: Global,
    text: &mut String,
    series: &[Series<'_>],
    scale: &Scale,
    span: u64,
) -> Result<(), AllocError>
    ensures { OnOk result (string_bytes text.new
        ≡ string_bytes text.old ++ all_series scale.now span series.now) }
{
    for (k, one) in series.iter().enumerate() {
        push_series(alloc, text, *one, k, scale, span)?;
    }
    Ok(())
}

/// Appends series `k` in its color.
#[tactic(auto, using(crate::proofs::Appended::joins), unfolding(crate::specs::Charts::series_text))]
fn push_series(
    alloc: Global,
    text: &mut String,
    series: Series<'_>,
    k: usize,
    scale: &Scale,
    span: u64,
) -> Result<(), AllocError>
    ensures { OnOk result (string_bytes text.new
        ≡ string_bytes text.old ++ series_text scale.now span (k, series.entry)) }
{
    let values = series.values;
    let columns = summaries(alloc, values, COLUMNS)?;
    let drawn = marks(alloc, &columns, values.len(), across_of(span), scale.axis())?;
    push_endless(text, values, values.len().min(COLUMNS), across_of(span), k)?;
    push_drawn(text, &drawn, COLUMNS < values.len(), color_of(k))?;
    Ok(())
}

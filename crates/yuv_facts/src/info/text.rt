//! The text of `info`: the properties of a stream, one in each line.
ghost use Rattle.std.specs.Prelude.{◌≡◌, ◌*◌, ◌/◌, ◌++◌, codes, flat_map, string_bytes, IfOk, IfSome, OnOk};
ghost use Rattle.yuv_facts.specs.Facts.{bytes_fact, chroma_text, extension_fact, fact, file_fact, format_facts, interlacing_fact, interlacing_text, ratio_fact, siting_fact, siting_text, stated_facts, stream_facts};
ghost use Rattle.yuv_facts.specs.Info.{count_line};
ghost use Rattle.yuv_reports.specs.Texts.{BeginsWith};

use std::alloc::{AllocError, Global};
use v_frame::chroma::ChromaSubsampling;
use v_frame_y4m::{ChromaSiting, Interlacing, Ratio, StreamHeader, Text};

/// Returns the lines for the properties in the header, the size of a frame, and the size of the file if it is known.
pub(crate) fn format_text(
    alloc: Global,
    header: &StreamHeader,
    frame_len: usize,
    file_len: Option<u64>,
) -> Result<String, AllocError>
    ensures { IfOk result (λ text. string_bytes text
        ≡ stream_facts header.now frame_len file_len) }
{
    let mut text = String::new(alloc);
    push_format(&mut text, header)?;
    push_facts(&mut text, header)?;
    push_extensions(&mut text, header)?;
    push_sizes(&mut text, frame_len, file_len)?;
    Ok(text)
}

/// Appends the size of a frame in bytes, and the size of the file if it is known.
fn push_sizes(text: &mut String, frame_len: usize, file_len: Option<u64>) -> Result<(), AllocError>
    ensures { OnOk result (string_bytes text.new ≡ string_bytes text.old
        ++ (bytes_fact (codes "frame size") frame_len ++ file_fact file_len)) }
{
    push_bytes(text, "frame size", frame_len as u64)?;
    push_file(text, file_len)
}

/// Appends the size of the file in bytes, if it is known.
fn push_file(text: &mut String, len: Option<u64>) -> Result<(), AllocError>
    ensures { OnOk result (string_bytes text.new ≡ string_bytes text.old ++ file_fact len) }
{
    match len {
        Some(len) => push_bytes(text, "file size", len),
        None => Ok(()),
    }
}

/// Appends a line with a number of bytes.
fn push_bytes(text: &mut String, name: &str, count: u64) -> Result<(), AllocError>
    ensures { OnOk result (string_bytes text.new
        ≡ string_bytes text.old ++ bytes_fact name.now count) }
{
    writeln!(text, "{name}: {count} bytes")
}

/// Returns the lines for the number of frames and, if the header states a frame rate, for their duration.
pub(crate) fn frames_text(
    alloc: Global,
    header: &StreamHeader,
    frames: u64,
) -> Result<String, AllocError>
    ensures { IfOk result (λ text. BeginsWith (count_line frames) (string_bytes text)) }
{
    let mut text = String::new(alloc);
    writeln!(text, "frames: {frames}")?;
    push_duration(&mut text, header, frames)?;
    Ok(text)
}

/// Appends the duration of the frames, if the header states a frame rate.
fn push_duration(text: &mut String, header: &StreamHeader, frames: u64) -> Result<(), AllocError>
    ensures { OnOk result (BeginsWith (string_bytes text.old) (string_bytes text.new)) }
{
    let Some(milliseconds) = duration(frames, header.frame_rate) else {
        return Ok(());
    };
    let (seconds, rest) = (milliseconds / 1000, milliseconds % 1000);
    writeln!(text, "duration: {seconds}.{rest:03} s")
}

/// Returns the duration of `frames` frames in milliseconds, rounded down, or `None` if the rate is unknown.
fn duration(frames: u64, rate: Option<Ratio>) -> Option<u128>
    ensures { IfSome result (λ milliseconds. IfSome rate (λ rate. milliseconds
        ≡ frames * rate.denominator * 1000 / rate.numerator)) }
{
    let rate = rate?;
    if rate.numerator == 0 || rate.denominator == 0 {
        return None;
    }
    let product = (u128::from(frames) * u128::from(rate.denominator)).checked_mul(1000)?;
    Some(product / u128::from(rate.numerator))
}

/// Appends the size of a frame, its chroma subsampling and its bit depth.
fn push_format(text: &mut String, header: &StreamHeader) -> Result<(), AllocError>
    ensures { OnOk result (string_bytes text.new
        ≡ string_bytes text.old ++ format_facts header.now) }
{
    let (width, height) = (header.width, header.height);
    let depth = header.color.bit_depth();
    let format = chroma_name(header.color.subsampling());
    writeln!(text, "size: {width}x{height}")?;
    writeln!(text, "format: {format}")?;
    writeln!(text, "bit depth: {depth}")
}

/// Returns the usual name of a chroma subsampling, as 4:2:0.
fn chroma_name(subsampling: ChromaSubsampling) -> &'static str
    ensures { result.now ≡ chroma_text subsampling }
{
    match subsampling {
        ChromaSubsampling::Yuv420 => "4:2:0",
        ChromaSubsampling::Yuv422 => "4:2:2",
        ChromaSubsampling::Yuv411 => "4:1:1",
        ChromaSubsampling::Yuv444 => "4:4:4",
        ChromaSubsampling::Monochrome => "monochrome",
    }
}

/// Appends a line with a name and a value.
fn push_fact(text: &mut String, name: &str, value: &str) -> Result<(), AllocError>
    ensures { OnOk result (string_bytes text.new
        ≡ string_bytes text.old ++ fact name.now value.now) }
{
    writeln!(text, "{name}: {value}")
}

/// Appends the position of chroma samples, the frame rate, the interlacing and the pixel aspect ratio, each if the header states
/// it.
fn push_facts(text: &mut String, header: &StreamHeader) -> Result<(), AllocError>
    ensures { OnOk result (string_bytes text.new
        ≡ string_bytes text.old ++ stated_facts header.now) }
{
    push_siting(text, header.color.siting())?;
    push_ratio(text, "frame rate", &header.frame_rate)?;
    push_interlacing(text, header.interlacing)?;
    push_ratio(text, "pixel aspect", &header.pixel_aspect)
}

/// Appends the position of chroma samples, if the header states it.
fn push_siting(text: &mut String, siting: Option<ChromaSiting>) -> Result<(), AllocError>
    ensures { OnOk result (string_bytes text.new ≡ string_bytes text.old ++ siting_fact siting) }
{
    let Some(siting) = siting else {
        return Ok(());
    };
    push_fact(text, "chroma siting", siting_name(siting))
}

/// Returns the position of chroma samples as text.
fn siting_name(siting: ChromaSiting) -> &'static str
    ensures { result.now ≡ siting_text siting }
{
    match siting {
        ChromaSiting::Center => "center",
        ChromaSiting::Left => "left",
        ChromaSiting::Alternating => "alternating, as in PAL DV",
    }
}

/// Appends the interlacing, if the header states it.
fn push_interlacing(text: &mut String, interlacing: Option<Interlacing>) -> Result<(), AllocError>
    ensures { OnOk result (string_bytes text.new
        ≡ string_bytes text.old ++ interlacing_fact interlacing) }
{
    let Some(interlacing) = interlacing else {
        return Ok(());
    };
    push_fact(text, "interlacing", interlacing_name(interlacing))
}

/// Returns the interlacing as text.
fn interlacing_name(interlacing: Interlacing) -> &'static str
    ensures { result.now ≡ interlacing_text interlacing }
{
    match interlacing {
        Interlacing::Progressive => "progressive",
        Interlacing::TopFirst => "top field first",
        Interlacing::BottomFirst => "bottom field first",
        Interlacing::Mixed => "mixed",
        Interlacing::Unknown => "unknown",
    }
}

/// Appends a line with a ratio, if the header states it.
fn push_ratio(text: &mut String, name: &str, ratio: &Option<Ratio>) -> Result<(), AllocError>
    ensures { OnOk result (string_bytes text.new
        ≡ string_bytes text.old ++ ratio_fact name.now ratio.now) }
{
    let Some(ratio) = ratio else {
        return Ok(());
    };
    let (numerator, denominator) = (ratio.numerator, ratio.denominator);
    writeln!(text, "{name}: {numerator}:{denominator}")
}

/// Appends the extensions of the header (parameters that begin with `X`).
fn push_extensions(text: &mut String, header: &StreamHeader) -> Result<(), AllocError>
    ensures { OnOk result (string_bytes text.new
        ≡ string_bytes text.old ++ flat_map extension_fact header.now.extensions) }
{
    let extensions = header.extensions.as_slice();
    for place in 0..extensions.len() {
        push_extension(text, extensions[place].as_slice())?;
    }
    Ok(())
}

/// Appends an extension of the header. Bytes that are not printable ASCII are shown as `?`.
fn push_extension(text: &mut String, bytes: &[u8]) -> Result<(), AllocError>
    ensures { OnOk result (string_bytes text.new
        ≡ string_bytes text.old ++ extension_fact bytes.now) }
{
    text.push_str("extension: ")?;
    for place in 0..bytes.len() {
        text.push(Text::shown(bytes[place]))?;
    }
    text.push('\n')
}

//! The command `copy`: copies a stream.
ghost use Rattle.std.specs.Prelude.{◌≡◌, ◌≤◌, ◌<◌, ◌-◌, ◌*◌, ◌%◌, ◌⊎◌, ◌&&◌, ◌+◌, false, IfErr, IfOk, IsTrue, OnOk};
ghost use Rattle.yuv_copies.specs.Fields.{has_all_rows, has_fields, halves_rows, KeepsFields};
ghost use Rattle.yuv_copies.specs.Warnings.{copy_asked, field_warning as warning_on_fields, range_warning as warning_on_range};
ghost use Rattle.yuv_copies.specs.Targets.{kind_of_copy};
ghost use Rattle.yuv_system.specs.Options.{KeepsLimit};
ghost use Rattle.v_frame.specs.Prelude.{usize_max};
ghost use Rattle.v_frame_streams.specs.Prelude.{bytes_left, Copies};
ghost use Rattle.yuv_words.specs.declared.command.CommandName.TheVariants.{Copy};

use std::alloc::Global;
use std::rt::Files;
use std::time::Clock;
use std::{fmt, io};
use v_frame::chroma::ChromaSubsampling;
use v_frame_formats::Rectangle;
use v_frame_planar::subsample_ratio_or_one;
use v_frame_rgb::ColorRange;
use v_frame_streams::{CopyOptions, Place, Progress, Sink, Source, StreamError, copy_stream};
use v_frame_y4m::{Interlacing, StreamHeader};
use yuv_files::{FileKind, SystemFile, shown_name, write_message};
use yuv_pictures::greatest_value;
use yuv_system::{
    Fault, Output, Status, System, Target, begin, copy_sink, declared_range, expected_frames,
    is_broken, is_standard_output, nothing_taken, open_file, stream_copy, test_limit, test_target,
    write_size_of_crop,
};
use yuv_words::{Call, Options};

/// Copies a stream, or a part of it, with the changes that the options request.
///
/// # Errors
///
/// A [`Fault`] if the stream can't be read, or if the copy can't be written.
pub fn do_copy<H, I, O, E>(
    system: &mut System<'_, H, I, O, E>,
    call: &Call<'_>,
) -> Result<Status, Fault>
where
    H: Files + AllocGlobal + Clock,
    H::File: SystemFile,
    I: io::Read + Drop,
    O: io::Write,
    E: io::Write,
    requires { call.now.name ≡ Copy }
{
    let (from, to) = (call.first, call.second);
    let options = &call.options;
    let rt = system.rt;
    let target = Target {
        name: to,
        written: written_kind(options),
        inputs: &[from],
        is_forced: options.force,
    };
    test_target(rt, &target)?;
    let mut file = open_file(rt, from, Place::First, &mut system.input)?;
    let len = file.len();
    let mut source = begin(system, from, &mut file, options.raw)?;
    test_fields(options, source.header())?;
    let on_fields = field_warning(options, source.header());
    write_warning(system.progress.out(), from, on_fields);
    let on_range = range_warning(options, source.header());
    write_warning(system.progress.out(), from, on_range);
    system.progress.expect(expected_frames(&source, len));
    let mut output = Output::open(rt, &target, &mut system.output, system.progress.out())?;
    let mut sink = copy_sink(options, &mut output);
    let done = copy_source(
        rt.alloc(),
        &mut source,
        &mut sink,
        options,
        &mut system.progress,
    );
    let written = sink.frames;
    drop(sink);
    let done = match done {
        Ok(frames) => Ok(frames),
        Err(error) => {
            write_size_of_crop(system.progress.out(), from, source.header(), &error.problem);
            if options.salvage && is_broken(&error) {
                output.settle(rt, Ok(()))?;
                system.progress.end();
                let name = if is_standard_output(to) {
                    "standard output"
                } else {
                    to
                };
                write_message(
                    system.progress.out(),
                    Some(name),
                    &Salvaged { frames: written },
                );
                return Err(Fault::Stream(error));
            }
            Err(Fault::Stream(error))
        }
    };
    let frames = output.settle(rt, done)?;
    if let Some(nothing) = nothing_taken(options, frames, source.frames()) {
        system.progress.end();
        write_message(system.progress.out(), Some(shown_name(from)), &nothing);
    }
    Ok(Status::Same)
}

/// Returns the kind of file that a copy is.
fn written_kind(options: &Options) -> FileKind
    ensures { result ≡ kind_of_copy options.now.raw_output }
{
    if options.raw_output {
        FileKind::Raw
    } else {
        FileKind::Y4m
    }
}

/// A message with the number of frames that were copied before a frame that cannot be read.
#[derive(Clone, Copy)]
struct Salvaged {
    frames: u64,
}

impl fmt::Display for Salvaged {
    fn fmt<W: fmt::Write>(&self, f: &mut fmt::Formatter<W>) -> fmt::Result {
        let frames = self.frames;
        write!(f, "whole frames written: {frames}")
    }
}

/// A change of samples that users may not expect of a copy.
#[derive(Debug, Clone, Copy, PartialEq, Eq)]
pub enum CopyWarning {
    /// Each row of the copy is calculated from rows of two fields, which were recorded at different times.
    HalfBlendsFields,
    /// Each chroma row of the copy is calculated from rows of two fields.
    FormatBlendsFields,
    /// Samples of full range are shifted to a greater bit depth, so that white is not the greatest value.
    FormatShiftsFullRange {
        /// The value of white in the copy.
        white: u16,
        /// The greatest value of the bit depth of the copy.
        most: u16,
    },
}

impl fmt::Display for CopyWarning {
    fn fmt<W: fmt::Write>(&self, f: &mut fmt::Formatter<W>) -> fmt::Result {
        match self {
            CopyWarning::HalfBlendsFields => {
                f.write_str("--half blends the fields of interlaced video")
            }
            CopyWarning::FormatBlendsFields => {
                f.write_str("--format blends the chroma of the fields of interlaced video")
            }
            CopyWarning::FormatShiftsFullRange { white, most } => write!(
                f,
                "--format shifts the samples of full-range video: white becomes {white}, not {most}"
            ),
        }
    }
}

/// Returns whether the frames of a stream consist of two fields, or may do so.
fn is_interlaced(header: &StreamHeader) -> bool
    ensures { result ≡ has_fields header.now.interlacing }
{
    matches!(
        header.interlacing,
        Some(Interlacing::TopFirst | Interlacing::BottomFirst | Interlacing::Mixed)
    )
}

/// Writes a message about the copy of the file `name`, if there is a warning.
fn write_warning<E: io::Write>(messages: &mut E, name: &str, warning: Option<CopyWarning>) {
    if let Some(warning) = warning {
        write_message(messages, Some(shown_name(name)), &warning);
    }
}

/// Returns the warning for a copy that mixes rows of two fields, or `None` for other copies.
fn field_warning(options: &Options, header: &StreamHeader) -> Option<CopyWarning>
    ensures { result ≡ warning_on_fields options.now.half options.now.format header.now }
{
    if !is_interlaced(header) {
        return None;
    }
    if options.half {
        return Some(CopyWarning::HalfBlendsFields);
    }
    match options.format {
        Some(format) if blends_chroma(header.color.subsampling(), format.subsampling()) => {
            Some(CopyWarning::FormatBlendsFields)
        }
        _ => None,
    }
}

/// Returns whether the subsampling `to` has chroma with fewer rows than the subsampling `from`.
fn blends_chroma(from: ChromaSubsampling, to: ChromaSubsampling) -> bool
    ensures { result ≡ (halves_rows to && has_all_rows from) }
{
    matches!(to, ChromaSubsampling::Yuv420)
        && matches!(
            from,
            ChromaSubsampling::Yuv422 | ChromaSubsampling::Yuv411 | ChromaSubsampling::Yuv444
        )
}

/// Returns the warning for a copy of a full-range stream to a greater bit depth, or `None` for other copies.
fn range_warning(options: &Options, header: &StreamHeader) -> Option<CopyWarning>
    ensures { result ≡ warning_on_range options.now.format header.now }
{
    let depth = header.color.bit_depth();
    match (options.format, declared_range(header)) {
        (Some(format), Some(ColorRange::Full)) if format.bit_depth() > depth => {
            let most = greatest_value(format.bit_depth());
            let lost = greatest_value(format.bit_depth() - depth);
            Some(CopyWarning::FormatShiftsFullRange {
                white: most.saturating_sub(lost),
                most,
            })
        }
        _ => None,
    }
}

/// Tests whether a crop keeps the order of the fields of interlaced video.
///
/// # Errors
///
/// [`Fault::SwapsFields`] if the first row of the crop, in luma or chroma, belongs to the second field, unless `--force` is
/// given.
fn test_fields(options: &Options, header: &StreamHeader) -> Result<(), Fault>
    ensures kept { OnOk result (IsTrue options.now.force ⊎ KeepsFields options.now.crop header.now) }
    ensures rejected { IfErr result (λ _. ¬ (KeepsFields options.now.crop header.now)) }
    ensures forced { IfErr result (λ _. options.now.force ≡ false) }
{
    let Some(part) = options.crop else {
        return Ok(());
    };
    let (_columns, rows) = subsample_ratio_or_one(header.color.subsampling());
    let step = rows.saturating_mul(2);
    if options.force || !is_interlaced(header) || part.y % step == 0 {
        return Ok(());
    }
    // This avoids an overflow. No picture has a row whose next multiple is above the greatest `usize`.
    let nearest = match part.y.checked_add(step) {
        Some(_) => nearest_multiple(part.y, step),
        None => 0,
    };
    Err(Fault::SwapsFields {
        place: Place::First,
        from: part.y,
        nearest,
    })
}

/// Returns the multiple of `step` that is nearest to `row`. If two are equally near, returns the lesser one.
fn nearest_multiple(row: usize, step: usize) -> usize
    requires some { 0 < step }
    requires room { row + step ≤ usize_max }
    ensures multiple { result % step ≡ 0 }
    ensures near { (result ≤ row × 2 * (row - result) ≤ step) ⊎ (row ≤ result × 2 * (result - row) < step) }
{
    let rest = row % step;
    let below = row - rest;
    if rest <= step - rest {
        return below;
    }
    below + step
}

/// Returns the options of a copy. With `--salvage`, a crop of the whole picture is added, so that complete frames are read before
/// they are written.
fn copy_options(options: &Options, header: &StreamHeader) -> CopyOptions
    ensures { result ≡ copy_asked options.now header.now }
{
    let mut taken = stream_copy(options);
    if options.salvage && taken.crop.is_none() {
        taken.crop = Some(Rectangle {
            x: 0,
            y: 0,
            width: header.width,
            height: header.height,
        });
    }
    taken
}

/// Copies a stream as the options specify, and returns the number of frames that were written.
///
/// # Errors
///
/// The errors of [`copy_stream`], and `Problem::TooManyPixels` if its pictures have more pixels than the options allow, even if
/// no picture is held in memory.
pub fn copy_source<R: io::Read, W: io::Write, P: Progress>(
    alloc: Global,
    source: &mut Source<R>,
    sink: &mut Sink<W>,
    options: &Options,
    progress: &mut P,
) -> Result<u64, StreamError>
    ensures copied { IfOk result (Copies source.old.container source.old.frame_len
        (bytes_left R.remaining source.old) (bytes_left R.remaining source.new)
        (W.contents sink.old.writer.inner) (W.contents sink.new.writer.inner)
        sink.old.container (copy_asked options.now source.old.header) source.old.header source.old.layout) }
    ensures small { OnOk result (KeepsLimit options.now.max_pixels source.old.header) }
{
    test_limit(source.header(), Place::First, options.max_pixels)?;
    let taken = copy_options(options, source.header());
    copy_stream(alloc, source, sink, &taken, progress)
}

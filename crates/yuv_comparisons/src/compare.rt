//! The command `compare`: measures how much two streams differ.
ghost use Rattle.std.specs.Prelude.{◌≡◌, ◌≢◌, ◌<◌, ◌↔◌, ◌⊎◌, is_some, unwrap_or, IfOk, IsNone, IsTrue, OnOk};
ghost use Rattle.v_frame.specs.Prelude.{one_byte, two_bytes};
ghost use Rattle.v_frame_y4m.specs.Color.{depth_of};
ghost use Rattle.yuv_system.specs.Options.{comparison_of};
ghost use Rattle.yuv_comparisons.specs.Inputs.{ComparesInputs};
ghost use Rattle.yuv_comparisons.specs.Reports.{report_end, EndsKnown};
ghost use Rattle.v_frame_streams.specs.Prelude.{bytes_left, sizes_in, stream_of, ComparesFrom, HaveOneFormat, WatchesFrom};
ghost use Rattle.v_frame_streams.specs.Sums.{pixels_of_sizes};
ghost use Rattle.yuv_words.specs.declared.command.CommandName.TheVariants.{Compare};

use crate::frame_report::FrameReport;
use crate::measures::{Means, Scale};
use crate::so_far::Above;
use std::alloc::Global;
use std::fs::OpenFile;
use std::io;
use std::rt::Files;
use std::time::Clock;
use v_frame::chroma::ChromaSubsampling;
use v_frame_planar::subsample_ratio_or_one;
use v_frame_streams::{
    Comparison, FrameObserver, Place, PlaneSums, Progress, Source, StreamError, check_formats,
    compare_streams,
};
use v_frame_y4m::StreamHeader;
use yuv_reports::{Report, ReportForm};
use yuv_system::{
    Fault, ProgressLine, Status, System, begin, expected_frames, header_differences, is_broken,
    open_file, stream_comparison, test_compared, write_above, write_differences, write_formats,
};
use yuv_words::{Call, Options};

/// Measures how much two streams differ, and writes a report.
///
/// # Errors
///
/// A [`Fault`] if a stream can't be read, if the streams can't be compared, if no frames were compared, or if the report can't be
/// written.
pub fn do_compare<H, F, I, O, E>(
    system: &mut System<'_, H, I, O, E>,
    call: &Call<'_>,
) -> Result<Status, Fault>
where
    H: Files<File = F> + AllocGlobal + Clock,
    F: OpenFile + io::Read,
    I: io::Read + Drop,
    O: io::Write,
    E: io::Write,
    requires { call.now.name ≡ Compare }
    ensures { IfOk result (ComparesInputs F.remaining I.remaining call.now system.old.input) }
{
    let (first, second) = (call.first, call.second);
    let options = &call.options;
    let alloc = system.rt.alloc();
    let mut file = open_file(system.rt, first, Place::First, &mut system.input)?;
    let len = file.len();
    let mut one = begin(system, first, &mut file, options.raw)?;
    let mut other_file = open_file(system.rt, second, Place::Second, &mut system.input)?;
    let mut other = begin(system, second, &mut other_file, options.raw_second)?;
    if options.ssim {
        test_windows(one.header())?;
    }
    system.progress.expect(expected_frames(&one, len));
    write_formats(system.progress.out(), one.header(), other.header());
    check_formats(&one, &other)?;
    warn_of_headers(system.progress.out(), options, one.header(), other.header());
    let out = &mut system.output;
    let progress = &mut system.progress;
    let names = (first, second);
    let (_out, found) = report_comparison(
        alloc, &mut one, &mut other, options, out, progress, names,
    )?;
    Ok(comparison_status(&found))
}

/// Writes a warning for each property in which the headers of two streams differ and that a comparison of samples does not show.
/// Headerless video has no header.
pub(crate) fn warn_of_headers<E: io::Write>(
    messages: &mut E,
    options: &Options,
    first: &StreamHeader,
    second: &StreamHeader,
) {
    if options.raw.is_none() && options.raw_second.is_none() {
        write_differences(messages, &header_differences(first, second));
    }
}

/// Compares two streams and writes a report. Returns the writer and the result of the comparison.
fn report_comparison<R: io::Read, S: io::Read, W: io::Write + Drop, H: Clock, E: io::Write>(
    alloc: Global,
    first: &mut Source<R>,
    second: &mut Source<S>,
    options: &Options,
    out: W,
    progress: &mut ProgressLine<'_, H, E>,
    names: (&str, &str),
) -> Result<(W, Comparison), Fault>
    ensures bytes { depth_of first.old.header.color ≡ 8 → IfOk result (λ done.
        ComparesFrom one_byte (sizes_in first.old.header)
        (stream_of first.old) (stream_of second.old)
        (bytes_left R.remaining first.old) (bytes_left R.remaining first.new)
        (bytes_left S.remaining second.old) (bytes_left S.remaining second.new)
        (comparison_of options.now) done.1) }
    ensures words { depth_of first.old.header.color ≢ 8 → IfOk result (λ done.
        ComparesFrom two_bytes (sizes_in first.old.header)
        (stream_of first.old) (stream_of second.old)
        (bytes_left R.remaining first.old) (bytes_left R.remaining first.new)
        (bytes_left S.remaining second.old) (bytes_left S.remaining second.new)
        (comparison_of options.now) done.1) }
    ensures some { IfOk result (λ done. 0 < done.1.frames) }
    ensures ended { IfOk result (λ done. EndsKnown (W.contents out) (W.contents done.0)
        (report_end options.now.form options.now.exact
        (unwrap_or options.now.skip 0) done.1)) }
{
    let report = Report::new(options.form, lists_frames(options));
    let scale = scale_of(first.header(), options);
    let before = first_taken(options);
    let means = means_of(options);
    let second_before = options.skip_second.unwrap_or(before);
    let mut observer = FrameReport::new(alloc, out, report, scale, means, before, second_before);
    let found = match compare_sources(alloc, first, second, options, &mut observer, progress) {
        Ok(found) => found,
        Err(error) => {
            let fault = report_broken(error, &mut observer, progress);
            warn_of_samples(progress.out(), names, first, second, observer.above());
            return Err(fault);
        }
    };
    test_compared(&found, first, second, &stream_comparison(options))?;
    progress.end();
    warn_of_samples(progress.out(), names, first, second, observer.above());
    observer.end(&found)?;
    Ok((observer.into_out(), found))
}

/// Writes a warning with the first frame of each stream that has samples above the greatest value of its bit depth.
fn warn_of_samples<R: io::Read, S: io::Read, E: io::Write>(
    messages: &mut E,
    names: (&str, &str),
    first: &Source<R>,
    second: &Source<S>,
    above: Above,
) {
    write_above(messages, names.0, first, above.first);
    write_above(messages, names.1, second, above.second);
}

/// If the error is that a stream breaks off, writes the report on the frames before. Returns the error of the comparison, or the
/// error of the report if it cannot be written.
fn report_broken<W: io::Write, H: Clock, E: io::Write>(
    error: StreamError,
    observer: &mut FrameReport<W>,
    progress: &mut ProgressLine<'_, H, E>,
) -> Fault {
    if !is_broken(&error) {
        return Fault::Stream(error);
    }
    progress.end();
    match observer.end_broken(&error) {
        Ok(()) => Fault::Stream(error),
        Err(unwritten) => Fault::Stream(unwritten),
    }
}

/// Returns the number of frames of the first stream that are skipped.
fn first_taken(options: &Options) -> u64
    ensures { result ≡ unwrap_or options.now.skip 0 }
{
    options.skip.unwrap_or(0)
}

/// Returns the parameters of the measures for streams with this header.
fn scale_of(header: &StreamHeader, options: &Options) -> Scale
    ensures pixels { result.pixels ≡ pixels_of_sizes (sizes_in header.now) }
    ensures bit_depth { result.bit_depth ≡ depth_of header.now.color }
    ensures exact { result.exact ≡ options.now.exact }
{
    Scale {
        pixels: samples_of(header),
        bit_depth: header.color.bit_depth(),
        exact: options.exact,
    }
}

/// Returns empty means of structural similarity if `--ssim` is given, and `None` otherwise.
fn means_of(options: &Options) -> Option<Means>
    ensures { is_some result ≡ options.now.ssim }
{
    options.ssim.then_some(Means::new())
}

/// Compares two streams as the options specify.
///
/// # Errors
///
/// The errors of [`compare_streams`].
pub fn compare_sources<
    R: io::Read,
    S: io::Read,
    O: FrameObserver<u8> + FrameObserver<u16>,
    P: Progress,
>(
    alloc: Global,
    first: &mut Source<R>,
    second: &mut Source<S>,
    options: &Options,
    observer: &mut O,
    progress: &mut P,
) -> Result<Comparison, StreamError>
    ensures formats { OnOk result (HaveOneFormat first.old.header second.old.header) }
    ensures bytes { depth_of first.old.header.color ≡ 8 → IfOk result (ComparesFrom one_byte
        (sizes_in first.old.header) (stream_of first.old) (stream_of second.old)
        (bytes_left R.remaining first.old) (bytes_left R.remaining first.new)
        (bytes_left S.remaining second.old) (bytes_left S.remaining second.new)
        (comparison_of options.now)) }
    ensures words { depth_of first.old.header.color ≢ 8 → IfOk result (ComparesFrom two_bytes
        (sizes_in first.old.header) (stream_of first.old) (stream_of second.old)
        (bytes_left R.remaining first.old) (bytes_left R.remaining first.new)
        (bytes_left S.remaining second.old) (bytes_left S.remaining second.new)
        (comparison_of options.now)) }
    ensures bytes_taken { depth_of first.old.header.color ≡ 8 → IfOk result (WatchesFrom one_byte
        (sizes_in first.old.header) ⟦<O as FrameObserver<u8>>⟧.takes observer.old observer.new
        (stream_of first.old) (stream_of second.old)
        (bytes_left R.remaining first.old) (bytes_left R.remaining first.new)
        (bytes_left S.remaining second.old) (bytes_left S.remaining second.new)
        (comparison_of options.now)) }
    ensures words_taken { depth_of first.old.header.color ≢ 8 → IfOk result (WatchesFrom two_bytes
        (sizes_in first.old.header) ⟦<O as FrameObserver<u16>>⟧.takes observer.old observer.new
        (stream_of first.old) (stream_of second.old)
        (bytes_left R.remaining first.old) (bytes_left R.remaining first.new)
        (bytes_left S.remaining second.old) (bytes_left S.remaining second.new)
        (comparison_of options.now)) }
{
    let taken = stream_comparison(options);
    compare_streams(alloc, first, second, &taken, observer, progress)
}

/// Returns the exit status for the result of a comparison.
fn comparison_status(found: &Comparison) -> Status
    ensures same { (result ≡ Status.Same)
        ↔ (IsNone found.now.difference × IsNone found.now.longer) }
    ensures never { result ≢ Status.Failed }
{
    if found.shows_the_same() {
        Status::Same
    } else {
        Status::Different
    }
}

/// Returns whether each frame is reported: always in CSV and JSON, and in lines if `--frames` is given.
fn lists_frames(options: &Options) -> bool
    ensures { IsTrue result ↔ (IsTrue options.now.frames ⊎ (options.now.form ≢ ReportForm.Lines)) }
{
    options.frames || options.form != ReportForm::Lines
}

/// Returns the number of samples in each plane of a frame.
pub(crate) fn samples_of(header: &StreamHeader) -> PlaneSums
    ensures { result ≡ pixels_of_sizes (sizes_in header.now) }
{
    let luma = header.width as u128 * header.height as u128;
    let chroma = match header.color.subsampling() {
        ChromaSubsampling::Monochrome => None,
        subsampling => {
            let (columns, rows) = subsample_ratio_or_one(subsampling);
            Some(header.width.div_ceil(columns) as u128 * header.height.div_ceil(rows) as u128)
        }
    };
    PlaneSums {
        y: luma,
        u: chroma,
        v: chroma,
    }
}

/// Tests whether each plane of a frame is large enough for a window of structural similarity, which has 8x8 samples.
///
/// # Errors
///
/// [`Fault::NoWindow`] if a plane is smaller.
pub(crate) fn test_windows(header: &StreamHeader) -> Result<(), Fault> {
    let (columns, rows) = subsample_ratio_or_one(header.color.subsampling());
    if header.width.div_ceil(columns) < 8 || header.height.div_ceil(rows) < 8 {
        return Err(Fault::NoWindow(Place::First));
    }
    Ok(())
}

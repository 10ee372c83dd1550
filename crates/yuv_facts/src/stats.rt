//! The command `stats`: prints statistics of the samples of a stream.
ghost use Rattle.std.specs.Prelude.{◌≡◌, ◌≢◌, ◌<◌, ◌^◌, ◌++◌, is_some, option_map, string_bytes, IfOk, OnOk};
ghost use Rattle.v_frame.specs.Prelude.{one_byte, table_of, tables_of, two_bytes};
ghost use Rattle.v_frame_y4m.specs.Color.{depth_of};
ghost use Rattle.v_frame_planar.specs.Planar.{sizes_of};
ghost use Rattle.yuv_facts.specs.Inputs.{ReportsValuesOfInput};
ghost use Rattle.yuv_facts.specs.Statistics.{ReportsValues, SaysCounts, SaysPlanes};
ghost use Rattle.yuv_facts.specs.Values.{histogram_said, rows_of_chroma, CountsChroma, CountsFrame, CountsFrom, CountsNothing, CountsStream};
ghost use Rattle.v_frame_streams.specs.Prelude.{bytes_left, sizes_in, IsMadeFor};
ghost use Rattle.yuv_system.specs.Headers.{used_range as range_used};
ghost use Rattle.yuv_words.specs.declared.command.CommandName.TheVariants.{Stats};

use crate::statistics::{NominalRange, push_chroma_plane, push_plane};
use crate::value_counts::ValueCounts;
use crate::values::CountedPixel;
use std::alloc::{AllocError, Global};
use std::fs::OpenFile;
use std::io;
use std::rt::Files;
use std::time::Clock;
use v_frame::frame::Frame;
use v_frame::plane::Plane;
use v_frame_formats::Component;
use v_frame_rgb::ColorRange;
use v_frame_streams::{Picture, Place, Progress, Silent, Source, StreamError, skip_frames};
use yuv_reports::push_histogram;
use yuv_system::{
    Fault, ProgressLine, Status, System, begin, expected_frames, most_pixels, no_memory,
    nothing_taken, open_file, used_range, write_made, write_nothing,
};
use yuv_words::{Call, Options};

/// Prints statistics of the samples of each plane over all frames, or their histogram.
///
/// # Errors
///
/// A [`Fault`] if the stream can't be read, or if the report can't be written.
pub fn do_stats<H, F, I, O, E>(
    system: &mut System<'_, H, I, O, E>,
    call: &Call<'_>,
) -> Result<Status, Fault>
where
    H: Files<File = F> + AllocGlobal + Clock,
    F: OpenFile + io::Read,
    I: io::Read + Drop,
    O: io::Write,
    E: io::Write,
    requires { call.now.name ≡ Stats }
    ensures { IfOk result (λ status. (status ≡ Status.Same)
        × ReportsValuesOfInput F.remaining I.remaining call.now system.old.input
        (O.contents system.old.output) (O.contents system.new.output)) }
{
    let alloc = system.rt.alloc();
    let (name, options) = (call.first, &call.options);
    let mut file = open_file(system.rt, name, Place::First, &mut system.input)?;
    let len = file.len();
    let mut source = begin(system, name, &mut file, options.raw)?;
    system.progress.expect(expected_frames(&source, len));
    let (out, progress) = (&mut system.output, &mut system.progress);
    let found = report_values(alloc, &mut source, options, out, progress)?;
    let nothing = nothing_taken(options, found, source.frames());
    write_nothing(system.progress.out(), name, nothing);
    Ok(Status::Same)
}

/// Writes statistics of the samples of a stream, and returns the number of frames that they cover. If a frame can't be read, the
/// statistics of the frames before it are written, and then the error is returned.
fn report_values<R: io::Read, W: io::Write, H: Clock, E: io::Write>(
    alloc: Global,
    source: &mut Source<R>,
    options: &Options,
    out: &mut W,
    progress: &mut ProgressLine<'_, H, E>,
) -> Result<u64, StreamError>
    ensures bytes { depth_of source.old.header.color ≡ 8 → IfOk result (ReportsValues one_byte
        (256 ^ 1) source.old.container source.old.frame_len source.old.layout
        (sizes_in source.old.header) (bytes_left R.remaining source.old)
        (bytes_left R.remaining source.new) (W.contents out.old) (W.contents out.new)
        options.now (range_used options.now.range source.old.header)
        (depth_of source.old.header.color)) }
    ensures words { depth_of source.old.header.color ≢ 8 → IfOk result (ReportsValues two_bytes
        (256 ^ 2) source.old.container source.old.frame_len source.old.layout
        (sizes_in source.old.header) (bytes_left R.remaining source.old)
        (bytes_left R.remaining source.new) (W.contents out.old) (W.contents out.new)
        options.now (range_used options.now.range source.old.header)
        (depth_of source.old.header.color)) }
{
    if source.header().color.bit_depth() == 8 {
        report_pixels::<u8, _, _, _, _>(alloc, source, options, out, progress)
    } else {
        report_pixels::<u16, _, _, _, _>(alloc, source, options, out, progress)
    }
}

/// Writes the statistics of a stream whose samples have the type `T`. See [`report_values`].
fn report_pixels<T: CountedPixel, R: io::Read, W: io::Write, H: Clock, E: io::Write>(
    alloc: Global,
    source: &mut Source<R>,
    options: &Options,
    out: &mut W,
    progress: &mut ProgressLine<'_, H, E>,
) -> Result<u64, StreamError>
    ensures { IfOk result (ReportsValues T.form (256 ^ T.BYTES) source.old.container
        source.old.frame_len source.old.layout (sizes_in source.old.header)
        (bytes_left R.remaining source.old) (bytes_left R.remaining source.new)
        (W.contents out.old) (W.contents out.new) options.now
        (range_used options.now.range source.old.header) (depth_of source.old.header.color)) }
{
    let depth = source.header().color.bit_depth();
    let range = used_range(options.range, source.header());
    let (counts, counted) = count_values::<T, _, _>(alloc, source, options, progress)?;
    let text = report_text(alloc, &counts, options.histogram, range, depth);
    drop(counts);
    progress.end();
    write_made(out, text)?;
    counted
}

/// The number of times that each value occurs in each plane.
#[derive(Drop)]
struct Counts {
    y: ValueCounts,
    u: Option<ValueCounts>,
    v: Option<ValueCounts>,
}

/// Counts the values in the selected frames, and these frames. If a frame can't be read, returns the error with the counts of the
/// frames before it.
fn count_values<T: CountedPixel, R: io::Read, P: Progress>(
    alloc: Global,
    source: &mut Source<R>,
    options: &Options,
    progress: &mut P,
) -> Result<(Counts, Result<u64, StreamError>), StreamError>
    ensures { IfOk result (λ done. IfOk done.1 (λ found. CountsFrom T.form (256 ^ T.BYTES)
        source.old.container source.old.frame_len source.old.layout (sizes_in source.old.header)
        (bytes_left R.remaining source.old) (bytes_left R.remaining source.new)
        options.now found done.0)) }
{
    let mut picture = Picture::<T>::new(alloc, source, most_pixels(options.max_pixels))?;
    skip_frames(source, options.skip.unwrap_or(0), &mut Silent)?;
    let has_chroma = picture.frame().u_plane.is_some();
    let Ok(mut counts) = Counts::new(alloc, has_chroma) else {
        return Err(no_memory());
    };
    let most = options.count.unwrap_or(u64::MAX);
    let counted = count_frames(alloc, source, &mut picture, most, &mut counts, progress);
    Ok((counts, counted))
}

/// Adds the values of up to `most` frames to `counts`, which are 0 before.
fn count_frames<T: CountedPixel, R: io::Read, P: Progress>(
    alloc: Global,
    source: &mut Source<R>,
    picture: &mut Picture<T>,
    most: u64,
    counts: &mut Counts,
    progress: &mut P,
) -> Result<u64, StreamError>
    requires made { IsMadeFor T.form source.old picture.old }
    requires nothing { CountsNothing (is_some (sizes_of (tables_of picture.old.frame)).1.0)
        counts.old }
    ensures { IfOk result (λ found. CountsStream T.form (256 ^ T.BYTES) source.old.container
        source.old.frame_len source.old.layout (sizes_of (tables_of picture.old.frame))
        (bytes_left R.remaining source.old) (bytes_left R.remaining source.new) most found
        counts.new) }
{
    for count in 0..most {
        if !picture.read(source)? {
            return Ok(count);
        }
        if counts.add(alloc, picture.frame()).is_err() {
            return Err(no_memory());
        }
        progress.show(count + 1);
    }
    Ok(most)
}

impl Counts {
    /// Returns counts of 0.
    fn new(alloc: Global, has_chroma: bool) -> Result<Self, AllocError>
        ensures { IfOk result (CountsNothing has_chroma) }
    {
        let y = ValueCounts::new(alloc)?;
        if !has_chroma {
            return Ok(Counts {
                y,
                u: None,
                v: None,
            });
        }
        let u = ValueCounts::new(alloc)?;
        let v = ValueCounts::new(alloc)?;
        Ok(Counts {
            y,
            u: Some(u),
            v: Some(v),
        })
    }

    /// Adds the values of a frame.
    fn add<T: CountedPixel>(&mut self, alloc: Global, frame: &Frame<T>) -> Result<(), AllocError>
        ensures { OnOk result (CountsFrame T.form (256 ^ T.BYTES) (tables_of frame.now) self.old
            self.new) }
    {
        T::add_counts(alloc, &frame.y_plane.as_plane_ref(), &mut self.y)?;
        add_chroma(alloc, &frame.u_plane, &mut self.u)?;
        add_chroma(alloc, &frame.v_plane, &mut self.v)
    }
}

/// Adds the values of a chroma plane, if the frame has it.
fn add_chroma<T: CountedPixel>(
    alloc: Global,
    plane: &Option<Plane<T>>,
    counts: &mut Option<ValueCounts>,
) -> Result<(), AllocError>
    ensures { OnOk result (CountsChroma T.form (256 ^ T.BYTES) (option_map table_of plane.now)
        counts.old counts.new) }
{
    match (plane, counts) {
        (Some(plane), Some(counts)) => T::add_counts(alloc, &plane.as_plane_ref(), counts),
        _ => Ok(()),
    }
}

/// Returns the requested report: a histogram, or a line for each plane.
fn report_text(
    alloc: Global,
    counts: &Counts,
    histogram: bool,
    range: ColorRange,
    depth: u8,
) -> Result<String, AllocError>
    ensures { IfOk result (λ text. SaysCounts histogram range depth counts.now (string_bytes text)) }
{
    if histogram {
        return histogram_text(alloc, counts);
    }
    statistics_text(alloc, counts, range, depth)
}

/// Returns the histogram: a row for each value that occurs.
fn histogram_text(alloc: Global, counts: &Counts) -> Result<String, AllocError>
    ensures { IfOk result (λ text. string_bytes text ≡ histogram_said counts.now) }
{
    let mut text = String::new(alloc);
    text.push_str("plane,value,count\n")?;
    push_histogram(&mut text, Component::Y, counts.y.counts())?;
    push_chroma(&mut text, Component::U, &counts.u)?;
    push_chroma(&mut text, Component::V, &counts.v)?;
    Ok(text)
}

/// Appends the rows of a chroma plane, if the frames have it.
fn push_chroma(
    text: &mut String,
    plane: Component,
    counts: &Option<ValueCounts>,
) -> Result<(), AllocError>
    ensures { OnOk result (string_bytes text.new
        ≡ string_bytes text.old ++ rows_of_chroma plane counts.now) }
{
    match counts {
        Some(counts) => push_histogram(text, plane, counts.counts()),
        None => Ok(()),
    }
}

/// Returns the statistics: a line for each plane.
fn statistics_text(
    alloc: Global,
    counts: &Counts,
    range: ColorRange,
    depth: u8,
) -> Result<String, AllocError>
    ensures { IfOk result (λ text. SaysPlanes range depth counts.now (string_bytes text)) }
{
    let mut text = String::new(alloc);
    let luma = NominalRange::new(range, 235, depth);
    let chroma = NominalRange::new(range, 240, depth);
    push_plane(alloc, &mut text, Component::Y, &counts.y, luma)?;
    push_chroma_plane(alloc, &mut text, Component::U, &counts.u, chroma)?;
    push_chroma_plane(alloc, &mut text, Component::V, &counts.v, chroma)?;
    Ok(text)
}

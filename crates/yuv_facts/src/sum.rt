//! The command `sum`: prints a checksum of each frame or of each plane.
ghost use Rattle.std.specs.Prelude.{◌≡◌, ◌+◌, ◌-◌, ◌^◌, ◌<◌, length, min, IfOk, OnOk};
ghost use Rattle.std.specs.Io.KnownBytes.{Appends};
ghost use Rattle.v_frame.specs.Prelude.{tables_of};
ghost use Rattle.v_frame_planar.specs.Planar.{byte_count, sizes_of};
ghost use Rattle.v_frame_y4m.specs.Color.{depth_of};
ghost use Rattle.v_frame_y4m.specs.Frames.{pixel_bytes};
ghost use Rattle.yuv_facts.specs.Checksums.{checksums_of, SumsFrames, SumsFrom};
ghost use Rattle.yuv_facts.specs.Inputs.{SumsInput};
ghost use Rattle.yuv_reports.specs.Samples.{checksums_line};
ghost use Rattle.v_frame_streams.specs.Prelude.{bytes_left, sizes_in, IsMadeFor};
ghost use Rattle.yuv_words.specs.declared.command.CommandName.TheVariants.{Sum};

use std::alloc::Global;
use std::fs::OpenFile;
use std::io;
use std::rt::Files;
use std::time::Clock;
use v_frame::frame::Frame;
use v_frame::pixel::Pixel;
use v_frame_bytes::crc32;
use v_frame_streams::{Picture, Place, Progress, Silent, Source, StreamError, skip_frames};
use yuv_reports::{Checksums, push_checksums};
use yuv_system::{
    Fault, Status, System, begin, expected_frames, most_pixels, no_memory, nothing_taken,
    open_file, write_nothing, write_text,
};
use yuv_words::{Call, Options};

/// Prints a checksum of each frame, or of each of its planes.
///
/// # Errors
///
/// A [`Fault`] if the stream can't be read or has no planes with checksums, or if the report can't be written.
pub fn do_sum<H, F, I, O, E>(
    system: &mut System<'_, H, I, O, E>,
    call: &Call<'_>,
) -> Result<Status, Fault>
where
    H: Files<File = F> + AllocGlobal + Clock,
    F: OpenFile + io::Read,
    I: io::Read + Drop,
    O: io::Write,
    E: io::Write,
    requires { call.now.name ≡ Sum }
    ensures { IfOk result (λ status. (status ≡ Status.Same)
        × SumsInput F.remaining I.remaining call.now system.old.input
        (O.contents system.old.output) (O.contents system.new.output)) }
{
    let (name, options) = (call.first, &call.options);
    let alloc = system.rt.alloc();
    let mut file = open_file(system.rt, name, Place::First, &mut system.input)?;
    let len = file.len();
    let mut source = begin(system, name, &mut file, options.raw)?;
    if options.planes && source.layout().is_some() {
        return Err(Fault::NoPlanes(Place::First));
    }
    system.progress.expect(expected_frames(&source, len));
    let (out, progress) = (&mut system.output, &mut system.progress);
    let found = sum_stream(alloc, &mut source, options, out, progress)?;
    system.progress.end();
    let nothing = nothing_taken(options, found, source.frames());
    write_nothing(system.progress.out(), name, nothing);
    Ok(Status::Same)
}

/// Writes a line for each selected frame of a stream, and returns the number of these frames.
fn sum_stream<R: io::Read, W: io::Write, P: Progress>(
    alloc: Global,
    source: &mut Source<R>,
    options: &Options,
    out: &mut W,
    progress: &mut P,
) -> Result<u64, StreamError>
    ensures { IfOk result (SumsFrom source.old.container source.old.frame_len
        (bytes_left R.remaining source.old) (bytes_left R.remaining source.new)
        (W.contents out.old) (W.contents out.new) options.now
        (pixel_bytes (depth_of source.old.header.color)) (sizes_in source.old.header)) }
{
    if source.header().color.bit_depth() == 8 {
        sum_as::<u8, _, _, _>(alloc, source, options, out, progress)
    } else {
        sum_as::<u16, _, _, _>(alloc, source, options, out, progress)
    }
}

/// Writes the lines of a stream whose samples have the type `T`, and returns the number of frames. See [`sum_stream`].
fn sum_as<T: Pixel, R: io::Read, W: io::Write, P: Progress>(
    alloc: Global,
    source: &mut Source<R>,
    options: &Options,
    out: &mut W,
    progress: &mut P,
) -> Result<u64, StreamError>
    ensures { IfOk result (SumsFrom source.old.container source.old.frame_len
        (bytes_left R.remaining source.old) (bytes_left R.remaining source.new)
        (W.contents out.old) (W.contents out.new) options.now
        T.form.size (sizes_in source.old.header)) }
{
    let mut picture = Picture::<T>::new(alloc, source, most_pixels(options.max_pixels))?;
    let skip = options.skip.unwrap_or(0);
    skip_frames(source, skip, &mut Silent)?;
    let lines = Lines {
        planes: options.planes,
        before: skip,
    };
    let most = options.count.unwrap_or(u64::MAX);
    Ok(sum_frames(alloc, source, &mut picture, lines, most, out, progress)?)
}

/// The contents of the lines.
#[derive(Clone, Copy)]
struct Lines {
    /// Whether each plane has a separate checksum.
    planes: bool,
    /// The number of frames before the first selected frame.
    before: u64,
}

/// Writes a line for each of the next `most` frames, or of the remaining frames if there are fewer, and returns their number.
fn sum_frames<T: Pixel, R: io::Read, W: io::Write, P: Progress>(
    alloc: Global,
    source: &mut Source<R>,
    picture: &mut Picture<T>,
    lines: Lines,
    most: u64,
    out: &mut W,
    progress: &mut P,
) -> Result<u64, StreamError>
    requires { IsMadeFor T.form source.old picture.old }
    ensures { IfOk result (SumsFrames source.old.container source.old.frame_len
        (bytes_left R.remaining source.old) (bytes_left R.remaining source.new)
        (W.contents out.old) (W.contents out.new) lines.planes
        T.form.size (sizes_of (tables_of picture.old.frame)) lines.before most) }
{
    let mut text = String::new(alloc);
    for count in 0..most {
        if !picture.read(source)? {
            return Ok(count);
        }
        let number = number_of(lines.before, count);
        let (frame, bytes) = (picture.frame(), picture.bytes());
        write_sums(&mut text, number, frame, bytes, lines.planes, out)?;
        progress.show(count + 1);
    }
    Ok(most)
}

/// Returns the number of a frame, counted from 1: `before` frames are skipped, and `count` of the selected frames precede it.
fn number_of(before: u64, count: u64) -> u64
    ensures { result ≡ min (before + count + 1) (2 ^ 64 - 1) }
{
    before.saturating_add(count).saturating_add(1)
}

/// Writes the line of the frame `number`, whose samples in planar order are `bytes`. The line is composed in `text`.
fn write_sums<T: Pixel, W: io::Write>(
    text: &mut String,
    number: u64,
    frame: &Frame<T>,
    bytes: &[u8],
    planes: bool,
    out: &mut W,
) -> Result<(), StreamError>
    requires { length bytes.now ≡ byte_count T.form.size (sizes_of (tables_of frame.now)) }
    ensures { OnOk result (Appends (W.contents out.old) (W.contents out.new)
        (checksums_line number
        (checksums_of planes T.form.size (sizes_of (tables_of frame.now)) bytes.now))) }
{
    text.clear();
    match push_checksums(text, number, checksums(frame, bytes, planes)) {
        Ok(()) => write_text(out, text.as_str()),
        Err(_) => Err(no_memory()),
    }
}

/// Returns the checksums of a frame, whose samples in planar order are `bytes`.
fn checksums<T: Pixel>(frame: &Frame<T>, bytes: &[u8], planes: bool) -> Checksums
    requires { length bytes.now ≡ byte_count T.form.size (sizes_of (tables_of frame.now)) }
    ensures { result ≡ checksums_of planes T.form.size (sizes_of (tables_of frame.now)) bytes.now }
{
    if !planes {
        return Checksums::Frame(crc32(bytes));
    }
    let (y, chroma) = bytes.split_at(frame.y_plane.byte_len());
    let Some(u_plane) = &frame.u_plane else {
        return Checksums::Planes(crc32(y), None);
    };
    let (u, v) = chroma.split_at(u_plane.byte_len());
    Checksums::Planes(crc32(y), Some((crc32(u), crc32(v))))
}

//! The input of a command: the header of a YUV4MPEG2 stream, or headerless video.
ghost use Rattle.std.specs.Prelude.{◌≡◌, ◌≤◌, ◌+◌, ◌-◌, ◌^◌, Some, min, IfErr, IfOk, IfSome};
ghost use Rattle.yuv_system.specs.InputFiles.{bytes_of_input, BeginsAsAStream, IsReadOn};
ghost use Rattle.yuv_system.specs.Inputs.{expected_of, header_of_raw, shortest_line, OpensAs, OpensAsRaw, OpensAsY4m};
ghost use Rattle.v_frame_streams.specs.Conversions.{layout_in};

use crate::fault::Fault;
use crate::input_file::InputFile;
use crate::system::System;
use std::alloc::{AllocError, Global};
use std::io::{self, Read};
use std::rt::Files;
use std::time::Clock;
use v_frame::sequence::Sequence;
use v_frame_formats::VideoFormat;
use v_frame_semi_planar::SemiPlanarFormat;
use v_frame_streams::{Container, Problem, Source, StreamError};
use v_frame_y4m::{StreamHeader, header_line};
use yuv_files::{LaxHeader, is_stream_file, shown_name, write_message};
use yuv_words::RawVideo;

/// Reads the header of an open file, or makes the header of headerless video from its options. If the header line is not strictly
/// valid, a warning states how it is read. Another warning is written if headerless video begins as a YUV4MPEG2 stream does.
///
/// # Errors
///
/// [`Fault::NoBytes`] if the file is empty, [`Fault::NotAStream`] if it does not begin as a stream does, and [`Fault::Header`] if
/// its header can't be read.
pub fn begin<'f, H: Files + AllocGlobal + Clock, F: Read, I: Read, O, E: io::Write>(
    system: &mut System<'_, H, I, O, E>,
    name: &str,
    file: &'f mut InputFile<F, I>,
    raw: Option<RawVideo>,
) -> Result<Source<&'f mut InputFile<F, I>>, Fault>
    requires { IsReadOn file.now }
    ensures opened { IfOk result (OpensAs (bytes_of_input F.remaining I.remaining) raw file.entry.now) }
    ensures output { system.new.output ≡ system.old.output }
    ensures input { system.new.input ≡ system.old.input }
{
    let alloc = system.rt.alloc();
    let place = file.place;
    let source = begin_stream(alloc, file, raw)?;
    if raw.is_some() && is_stream_file(system.rt, name) {
        write_message(
            system.progress.out(),
            Some(shown_name(name)),
            &"the file begins as a YUV4MPEG2 stream; without --raw its header would be read",
        );
    }
    if source.is_lax() {
        let Ok(line) = header_line(alloc, source.header()) else {
            return Err(Fault::Header(StreamError::at_start(place, Problem::OutOfMemory)));
        };
        let line = line.as_slice();
        write_message(
            system.progress.out(),
            Some(shown_name(name)),
            &LaxHeader { line },
        );
    }
    Ok(source)
}

/// Reads the header of an open file, or makes the header of headerless video from its options.
fn begin_stream<F: Read, I: Read>(
    alloc: Global,
    file: &mut InputFile<F, I>,
    raw: Option<RawVideo>,
) -> Result<Source<&mut InputFile<F, I>>, Fault>
    requires { IsReadOn file.now }
    ensures { IfOk result (OpensAs (bytes_of_input F.remaining I.remaining) raw file.entry.now) }
{
    match raw {
        Some(raw) => begin_raw(alloc, file, raw),
        None => begin_y4m(alloc, file),
    }
}

/// Reads an open file as headerless video.
fn begin_raw<F: Read, I: Read>(
    alloc: Global,
    file: &mut InputFile<F, I>,
    raw: RawVideo,
) -> Result<Source<&mut InputFile<F, I>>, Fault>
    ensures { IfOk result (OpensAsRaw (bytes_of_input F.remaining I.remaining) file.entry.now raw) }
{
    let place = file.place;
    let Ok(header) = raw_header(alloc, &raw) else {
        return Err(Fault::Header(StreamError::at_start(place, Problem::OutOfMemory)));
    };
    match Source::raw(alloc, place, header, layout_of(raw.format), file) {
        Ok(source) => Ok(source),
        Err(error) => Err(Fault::Header(error)),
    }
}

/// Reads the header line of an open file.
fn begin_y4m<F: Read, I: Read>(
    alloc: Global,
    file: &mut InputFile<F, I>,
) -> Result<Source<&mut InputFile<F, I>>, Fault>
    requires { IsReadOn file.now }
    ensures opened { IfOk result (OpensAsY4m (bytes_of_input F.remaining I.remaining) file.entry.now) }
    ensures refused { IfErr result (λ fault. fault ≡ Fault.NotAStream file.entry.now.place
        → IfSome (bytes_of_input F.remaining I.remaining file.entry.now) (λ bytes.
        ¬ (BeginsAsAStream bytes))) }
{
    let place = file.place;
    match file.begins_as_a_stream() {
        Ok(true) => {}
        Ok(false) if file.has_no_bytes() => return Err(Fault::NoBytes(place)),
        Ok(false) => return Err(Fault::NotAStream(place)),
        Err(error) => return Err(Fault::Header(error)),
    }
    match Source::y4m(alloc, place, file) {
        Ok(source) => Ok(source),
        Err(error) => Err(Fault::Header(error)),
    }
}

/// Returns the layout of a format whose chroma samples are interleaved, or `None` for other formats.
fn layout_of(format: VideoFormat) -> Option<SemiPlanarFormat>
    ensures { result ≡ layout_in (Some format) }
{
    match format {
        VideoFormat::Planar(_) => None,
        VideoFormat::SemiPlanar(layout) => Some(layout),
    }
}

/// Returns the header that a stream of this size and format would have. If samples have full range, an extension states it, as in
/// ffmpeg's streams.
fn raw_header(alloc: Global, raw: &RawVideo) -> Result<StreamHeader, AllocError>
    ensures { IfOk result (λ header. header ≡ header_of_raw raw.now) }
{
    let mut extensions = Vec::new(alloc);
    if raw.full_range {
        extensions.push(Sequence::from_slice(alloc, b"COLORRANGE=FULL")?)?;
    }
    Ok(StreamHeader {
        width: raw.width,
        height: raw.height,
        frame_rate: raw.rate,
        interlacing: None,
        pixel_aspect: None,
        color: raw.format.color(),
        extensions: extensions.into(),
    })
}

/// Returns the number of frames that a file of `len` bytes has if the line before each frame is as short as possible, or `None`
/// if the length is unknown.
pub fn expected_frames<R: Read>(source: &Source<R>, len: Option<u64>) -> Option<u64>
    ensures { result ≡ expected_of (min (source.now.frame_len
        + shortest_line source.now.container) (2 ^ 64 - 1)) len }
{
    let line = match source.container() {
        Container::Y4m => 6,
        Container::Raw => 0,
    };
    let size = (source.frame_len() as u64).saturating_add(line);
    match len {
        Some(len) if size > 0 => Some(len / size),
        _ => None,
    }
}

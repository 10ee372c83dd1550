//! Streams: opened, read into a picture, written, copied and compared.

use crate::pictures;
use crate::show::show;
use v_frame_streams::{
    CompareOptions, Container, CopyOptions, MAX_PIXELS, NoObserver, Picture, Place, Rectangle,
    Silent, Sink, Source, StreamError, compare_streams, copy_stream, crop_frame,
};
use v_frame_y4m::{Color, StreamHeader};

/// The header line of a stream.
static STREAM: [u8; 23] = *b"YUV4MPEG2 W30 H2 Cmono\n";

/// The pixels of two frames of two by two pixels.
static PIXELS: [u8; 8] = *b"abcdefgh";

/// The right column of such a frame.
const PART: Rectangle = Rectangle {
    x: 1,
    y: 0,
    width: 1,
    height: 2,
};

/// Runs the case with this name, in this module or a later one. Returns `None` if an allocation of its preparation fails.
pub fn seen(rt: &HostRuntime, name: &str) -> Option<()> {
    match name {
        "stream_with_a_header" => {
            show_opened(rt, Source::y4m(rt.alloc(), Place::First, STREAM.as_slice()));
        }
        "stream_without_a_header" => show_opened(rt, raw_source(rt, Place::Second)),
        "picture_of_a_stream" => show_picture(rt)?,
        "crop_of_a_frame" => show_crop(rt)?,
        "header_of_a_sink" => show_header_written(rt)?,
        "copied_stream" => show_copy(rt)?,
        "compared_streams" => show_comparison(rt)?,
        _ => pictures::seen(rt, name)?,
    }
    Some(())
}

/// Prints the properties of a stream, or the error of opening it.
fn show_opened(rt: &HostRuntime, opened: Result<Source<&[u8]>, StreamError>) {
    match opened {
        Ok(source) => show(rt, &(source.header(), source.frame_len(), source.is_lax())),
        Err(error) => show(rt, &error),
    }
}

/// Prints a frame that is read into a picture, or the error.
fn show_picture(rt: &HostRuntime) -> Option<()> {
    let mut source = raw_source(rt, Place::First).ok()?;
    match Picture::<u8>::new(rt.alloc(), &source, MAX_PIXELS) {
        Ok(mut picture) => {
            let read = picture.read(&mut source);
            show(rt, &(read, picture.bytes()));
        }
        Err(error) => show(rt, &error),
    }
    Some(())
}

/// Prints the bytes of a cropped frame, or the error.
fn show_crop(rt: &HostRuntime) -> Option<()> {
    let mut source = raw_source(rt, Place::First).ok()?;
    let mut picture = Picture::<u8>::new(rt.alloc(), &source, MAX_PIXELS).ok()?;
    picture.read(&mut source).ok()?;
    match crop_frame(rt.alloc(), &picture.frame, &PART) {
        Ok(part) => show(rt, &part.y_plane.data()),
        Err(problem) => show(rt, &problem),
    }
    Some(())
}

/// Prints the bytes of a header that is written to a buffer of fixed length. If an allocation fails, nothing is written.
fn show_header_written(rt: &HostRuntime) -> Option<()> {
    let header = header(rt);
    let mut room = [0; 24];
    let mut sink = Sink::new(Container::Y4m, room.as_mut_slice());
    if !sink.takes_header(&header) {
        return None;
    }
    let written = sink.write_header(rt.alloc(), &header);
    drop(sink);
    show(rt, &(written, str::from_utf8(&room)));
    Some(())
}

/// Prints how many frames are cropped and written to a buffer of fixed length, and its contents. If an allocation fails,
/// nothing is written.
fn show_copy(rt: &HostRuntime) -> Option<()> {
    let mut source = raw_source(rt, Place::First).ok()?;
    let mut room = [0; 40];
    let mut sink = Sink::new(Container::Y4m, room.as_mut_slice());
    let mut options = CopyOptions::new();
    options.crop = Some(PART);
    let copied = copy_stream(rt.alloc(), &mut source, &mut sink, &options, &mut Silent);
    drop(sink);
    show(rt, &(copied, source.frames(), str::from_utf8(&room)));
    Some(())
}

/// Prints the comparison of a stream with itself, shifted by one frame.
fn show_comparison(rt: &HostRuntime) -> Option<()> {
    let mut first = raw_source(rt, Place::First).ok()?;
    let mut second = raw_source(rt, Place::Second).ok()?;
    let options = CompareOptions {
        skip_first: 0,
        skip_second: 1,
        count: None,
        max_pixels: MAX_PIXELS,
    };
    let compared = compare_streams(
        rt.alloc(),
        &mut first,
        &mut second,
        &options,
        &mut NoObserver,
        &mut Silent,
    );
    show(rt, &(compared, first.frames(), second.frames()));
    Some(())
}

/// Returns a stream of raw video.
fn raw_source(rt: &HostRuntime, place: Place) -> Result<Source<&'static [u8]>, StreamError> {
    Source::raw(rt.alloc(), place, header(rt), None, PIXELS.as_slice())
}

/// Returns the header of the frames. It needs no memory.
fn header(rt: &HostRuntime) -> StreamHeader {
    StreamHeader {
        width: 2,
        height: 2,
        frame_rate: None,
        interlacing: None,
        pixel_aspect: None,
        color: Color::Mono,
        extensions: Vec::new(rt.alloc()).into(),
    }
}

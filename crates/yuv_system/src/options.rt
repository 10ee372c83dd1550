//! Translates the options of a command into options for streams.
ghost use Rattle.std.specs.Prelude.{◌≡◌, ◌*◌, ◌<◌, ◌≤◌, IfErr, OnOk};
ghost use Rattle.yuv_system.specs.Options.{comparison_of, copy_of, most_pixels as most, sink_container, taken_of, ExceedsLimit, KeepsLimit};

use std::io::Write;
use v_frame_streams::{Container, MAX_PIXELS, Place, Problem, Sink, StreamError};
use v_frame_y4m::StreamHeader;

/// Returns the largest number of luma pixels that a picture may have: `asked`, or the number of pixels of 7680x4320.
pub fn most_pixels(asked: Option<u64>) -> usize
    ensures { result ≡ most asked }
{
    match asked {
        Some(pixels) => usize::try_from(pixels).unwrap_or(usize::MAX),
        None => MAX_PIXELS,
    }
}

/// Returns the options of a copy: the frames to take from the stream, and the changes to make to them.
pub fn stream_copy(options: &yuv_words::Options) -> v_frame_streams::CopyOptions
    ensures { result ≡ copy_of options.now }
{
    v_frame_streams::CopyOptions {
        skip: options.skip.unwrap_or(0),
        count: options.count,
        crop: options.crop,
        half: options.half,
        format: options.format,
        frame_rate: options.rate,
        pixel_aspect: options.aspect,
        max_pixels: most_pixels(options.max_pixels),
    }
}

/// Returns the stream to which a copy writes.
pub fn copy_sink<W: Write>(options: &yuv_words::Options, writer: W) -> Sink<W>
    ensures container { result.container ≡ sink_container options.now }
    ensures writer { result.writer.inner ≡ writer }
    ensures frames { result.frames ≡ 0 }
{
    let container = if options.raw_output {
        Container::Raw
    } else {
        Container::Y4m
    };
    Sink::new(container, writer)
}

/// Returns the options of a comparison of two streams.
pub fn stream_comparison(options: &yuv_words::Options) -> v_frame_streams::CompareOptions
    ensures { result ≡ comparison_of options.now }
{
    taken_of_both(
        options.skip,
        options.skip_second,
        options.count,
        options.max_pixels,
    )
}

/// Returns the options for reading two streams. If `skip_second` is `None`, `skip` applies to both streams.
pub fn taken_of_both(
    skip: Option<u64>,
    skip_second: Option<u64>,
    count: Option<u64>,
    max_pixels: Option<u64>,
) -> v_frame_streams::CompareOptions
    ensures { result ≡ taken_of skip skip_second count max_pixels }
{
    let skip_first = skip.unwrap_or(0);
    v_frame_streams::CompareOptions {
        skip_first,
        skip_second: skip_second.unwrap_or(skip_first),
        count,
        max_pixels: most_pixels(max_pixels),
    }
}

/// Tests whether the pictures of a header have at most `asked` luma pixels. If `asked` is `None`, any number is accepted.
///
/// # Errors
///
/// [`Problem::TooManyPixels`] if they have more.
pub fn test_limit(
    header: &StreamHeader,
    place: Place,
    asked: Option<u64>,
) -> Result<(), StreamError>
    ensures ok { OnOk result (KeepsLimit asked header.now) }
    ensures refused { IfErr result (λ _. ExceedsLimit asked header.now) }
{
    match asked {
        Some(_) => test_pixels(header, place, most_pixels(asked)),
        None => Ok(()),
    }
}

/// Tests whether the pictures of a header have at most `most` luma pixels.
///
/// # Errors
///
/// [`Problem::TooManyPixels`] if they have more.
pub fn test_pixels(header: &StreamHeader, place: Place, most: usize) -> Result<(), StreamError>
    ensures ok { OnOk result (header.now.width * header.now.height ≤ most) }
    ensures refused { IfErr result (λ _. most < header.now.width * header.now.height) }
{
    match header.width.checked_mul(header.height) {
        Some(pixels) if pixels <= most => Ok(()),
        _ => Err(StreamError::at_start(place, Problem::TooManyPixels(most))),
    }
}

//! Copies a stream, with its frames unchanged or edited.
ghost use Rattle.std.specs.Prelude.{◌≡◌, ◌+◌, min, true, IfErr, IfOk, None, OnErr, OnOk};
ghost use Rattle.std.specs.Io.KnownBytes.{Appends};
ghost use Rattle.v_frame_y4m.specs.Color.{depth_of};
ghost use Rattle.v_frame_y4m.specs.Frames.{pixel_bytes};
ghost use Rattle.v_frame_y4m.specs.Header.{IsWritable};
ghost use Rattle.v_frame_streams.specs.Conversions.{form_of, layout_in};
ghost use Rattle.v_frame_streams.specs.Breaks.{counts_of, BreaksCopy};
ghost use Rattle.v_frame_streams.specs.Copies.{copied_header, limit_of, made_bytes, same_bytes, taken, Begins, CanCopy, Copies, CopiesBy, RefusesCopy};
ghost use Rattle.v_frame_streams.specs.Crops.{IsTakable};
ghost use Rattle.v_frame_streams.specs.Stops.{IsAtNextFrame, StopsCopy};
ghost use Rattle.v_frame_streams.specs.Sources.{bytes_left, stream_of};
ghost use Rattle.v_frame_streams.specs.Streams.{header_bytes, most_frames};
ghost use Rattle.v_frame_streams.specs.Telling.{TellsUpTo};

use crate::crop::check_crop;
use crate::editing::edit_frames;
use crate::error::{Problem, StreamError};
use crate::maker::Maker;
use crate::moving::move_frames;
use crate::options::CopyOptions;
use crate::passing::skip_frames;
use crate::picture::Picture;
use crate::plan::{header_of, rectangle_of};
use crate::progress::{Progress, Silent};
use crate::sink::Sink;
use crate::source::Source;
use crate::stream::Container;
use std::alloc::Global;
use std::io;
use v_frame::pixel::Pixel;
use v_frame_y4m::StreamHeader;

/// Copies frames from `source` to `sink`, edits them if `options` say so, and returns the number of frames written.
///
/// The call writes the header, skips [`CopyOptions::skip`] frames of `source`, and then copies at most [`CopyOptions::count`]
/// frames.
///
/// If the frames need no crop, no halving and no conversion, their bytes are copied through a block of fixed size. Otherwise
/// each frame is read into one reused picture, cropped, halved, and converted to the output format, in this order. Without an
/// output format, raw video keeps the semi-planar layout of the source, and a YUV4MPEG2 stream gets planar frames.
///
/// After each frame written, `progress` receives the number of frames written so far.
///
/// # Errors
///
/// These errors are returned before anything is read or written:
///
/// - [`Problem::EmptyCrop`], [`Problem::CropOutside`] or [`Problem::CropMisaligned`] if the crop does not fit the frames.
/// - [`Problem::SemiPlanar`] if `sink` is a YUV4MPEG2 stream and the output format is semi-planar.
/// - [`Problem::Unwritable`] if no header line can describe the output.
/// - [`Problem::TooManyPixels`] if a frame that has to be held in memory has more than [`CopyOptions::max_pixels`] luma pixels.
/// - [`Problem::TooLarge`] if the planes of such a frame are too large for the address space.
/// - [`Problem::OutOfMemory`] if a memory allocation fails.
///
/// This error is returned during the copy, and part of the output may have been written:
///
/// - [`Problem::Stream`] if the header line cannot be written, if a frame cannot be read whole, or if a write fails.
pub fn copy_stream<R: io::Read, W: io::Write, P: Progress>(
    alloc: Global,
    source: &mut Source<R>,
    sink: &mut Sink<W>,
    options: &CopyOptions,
    progress: &mut P,
) -> Result<u64, StreamError>
    ensures copied { IfOk result (Copies source.old.container source.old.frame_len
        (bytes_left R.remaining source.old) (bytes_left R.remaining source.new)
        (W.contents sink.old.writer.inner) (W.contents sink.new.writer.inner)
        sink.old.container options.now source.old.header source.old.layout) }
    ensures planar { OnOk result (sink.old.container ≡ Container.Y4m
        → layout_in options.now.format ≡ None) }
    ensures can { OnOk result (CanCopy sink.old.container options.now source.old.header) }
    ensures refused { ¬ (CanCopy sink.old.container options.now source.old.header) → IfErr result (λ error.
        RefusesCopy sink.old.container options.now source.old.header error.problem) }
    ensures untouched { ¬ (CanCopy sink.old.container options.now source.old.header)
        → (bytes_left R.remaining source.new ≡ bytes_left R.remaining source.old)
        × (W.contents sink.new.writer.inner ≡ W.contents sink.old.writer.inner) }
    ensures told { IfOk result (λ found. TellsUpTo P.shows found progress.old progress.new) }
    ensures stopped { IfErr result (StopsCopy source.new sink.new) }
    ensures broken { OnErr result (BreaksCopy source.old.container source.old.frame_len
        (bytes_left R.remaining source.old) options.now.skip (limit_of options.now)
        (counts_of source.old sink.old) (counts_of source.new sink.new)) }
    ensures same { stream_of source.new ≡ stream_of source.old }
{
    let header = planned_header(alloc, source, sink, options)?;
    if options.is_plain(sink.container, source.header(), source.layout()) {
        return move_stream(alloc, source, &header, sink, options, progress);
    }
    if source.header().color.bit_depth() == 8 {
        return edit_as::<u8, _, _, _>(alloc, source, &header, sink, options, progress);
    }
    edit_as::<u16, _, _, _>(alloc, source, &header, sink, options, progress)
}

/// Returns the header of the output, if every check that needs no memory for frames allows the copy.
fn planned_header<R: io::Read, W: io::Write>(
    alloc: Global,
    source: &Source<R>,
    sink: &Sink<W>,
    options: &CopyOptions,
) -> Result<StreamHeader, StreamError>
    ensures header { IfOk result (λ header. header
        ≡ copied_header options.now source.now.header) }
    ensures takable { IfOk result (λ _. IsTakable (taken options.now source.now.header) source.now.header) }
    ensures planar { OnOk result (sink.now.container ≡ Container.Y4m
        → layout_in options.now.format ≡ None) }
    ensures writable { IfOk result (λ header. sink.now.container ≡ Container.Y4m → IsWritable header) }
    ensures can { OnOk result (CanCopy sink.now.container options.now source.now.header) }
    ensures refused { IfErr result (λ error.
        RefusesCopy sink.now.container options.now source.now.header error.problem) }
    ensures stopped { IfErr result (IsAtNextFrame source.now) }
{
    check_crop(source, &rectangle_of(options, source.header()))?;
    let Ok(header) = header_of(alloc, options, source.header()) else {
        return Err(source.refused(Problem::OutOfMemory));
    };
    if sink.container == Container::Y4m && options.layout().is_some() {
        drop(header);
        return Err(source.refused(Problem::SemiPlanar));
    }
    if sink.container == Container::Y4m && !header.is_writable() {
        drop(header);
        return Err(source.refused(Problem::Unwritable));
    }
    Ok(header)
}

/// Copies a stream whose frames are written unchanged.
fn move_stream<R: io::Read, W: io::Write, P: Progress>(
    alloc: Global,
    source: &mut Source<R>,
    header: &StreamHeader,
    sink: &mut Sink<W>,
    options: &CopyOptions,
    progress: &mut P,
) -> Result<u64, StreamError>
    requires { sink.old.container ≡ Container.Y4m → IsWritable header.now }
    ensures copied { IfOk result (CopiesBy source.old.container source.old.frame_len
        (bytes_left R.remaining source.old) (bytes_left R.remaining source.new)
        (W.contents sink.old.writer.inner) (W.contents sink.new.writer.inner)
        sink.old.container options.now header.now same_bytes) }
    ensures told { IfOk result (λ found. TellsUpTo P.shows found progress.old progress.new) }
    ensures stopped { IfErr result (StopsCopy source.new sink.new) }
    ensures broken { OnErr result (BreaksCopy source.old.container source.old.frame_len
        (bytes_left R.remaining source.old) options.now.skip (limit_of options.now)
        (counts_of source.old sink.old) (counts_of source.new sink.new)) }
    ensures same { stream_of source.new ≡ stream_of source.old }
{
    if !begin_copy(alloc, source, header, sink, options)? {
        return Ok(0);
    }
    let most = options.count.unwrap_or(u64::MAX);
    move_frames(source, sink, most, progress)
}

/// Copies a stream of pixels of type `S` whose frames are edited. The bit depth in `header` selects the pixel type of the
/// output.
fn edit_as<S: Pixel, R: io::Read, W: io::Write, P: Progress>(
    alloc: Global,
    source: &mut Source<R>,
    header: &StreamHeader,
    sink: &mut Sink<W>,
    options: &CopyOptions,
    progress: &mut P,
) -> Result<u64, StreamError>
    requires pixels { S.form.size ≡ pixel_bytes (depth_of source.old.header.color) }
    requires takable { IsTakable (taken options.now source.old.header) source.old.header }
    requires header { header.now ≡ copied_header options.now source.old.header }
    requires writable { sink.old.container ≡ Container.Y4m → IsWritable header.now }
    ensures copied { IfOk result (CopiesBy source.old.container source.old.frame_len
        (bytes_left R.remaining source.old) (bytes_left R.remaining source.new)
        (W.contents sink.old.writer.inner) (W.contents sink.new.writer.inner)
        sink.old.container options.now header.now
        (made_bytes S.form (form_of (depth_of header.now.color)) sink.old.container options.now
        source.old.header source.old.layout)) }
    ensures told { IfOk result (λ found. TellsUpTo P.shows found progress.old progress.new) }
    ensures stopped { IfErr result (StopsCopy source.new sink.new) }
    ensures broken { OnErr result (BreaksCopy source.old.container source.old.frame_len
        (bytes_left R.remaining source.old) options.now.skip (limit_of options.now)
        (counts_of source.old sink.old) (counts_of source.new sink.new)) }
    ensures same { stream_of source.new ≡ stream_of source.old }
{
    if header.color.bit_depth() == 8 {
        return edit_stream::<S, u8, _, _, _>(alloc, source, header, sink, options, progress);
    }
    edit_stream::<S, u16, _, _, _>(alloc, source, header, sink, options, progress)
}

/// Copies a stream of pixels of type `S` and writes pixels of type `T`.
fn edit_stream<S: Pixel, T: Pixel, R: io::Read, W: io::Write, P: Progress>(
    alloc: Global,
    source: &mut Source<R>,
    header: &StreamHeader,
    sink: &mut Sink<W>,
    options: &CopyOptions,
    progress: &mut P,
) -> Result<u64, StreamError>
    requires pixels { S.form.size ≡ pixel_bytes (depth_of source.old.header.color) }
    requires written { T.form.size ≡ pixel_bytes (depth_of header.now.color) }
    requires takable { IsTakable (taken options.now source.old.header) source.old.header }
    requires header { header.now ≡ copied_header options.now source.old.header }
    requires writable { sink.old.container ≡ Container.Y4m → IsWritable header.now }
    ensures copied { IfOk result (CopiesBy source.old.container source.old.frame_len
        (bytes_left R.remaining source.old) (bytes_left R.remaining source.new)
        (W.contents sink.old.writer.inner) (W.contents sink.new.writer.inner)
        sink.old.container options.now header.now
        (made_bytes S.form T.form sink.old.container options.now source.old.header
        source.old.layout)) }
    ensures told { IfOk result (λ found. TellsUpTo P.shows found progress.old progress.new) }
    ensures stopped { IfErr result (StopsCopy source.new sink.new) }
    ensures broken { OnErr result (BreaksCopy source.old.container source.old.frame_len
        (bytes_left R.remaining source.old) options.now.skip (limit_of options.now)
        (counts_of source.old sink.old) (counts_of source.new sink.new)) }
    ensures same { stream_of source.new ≡ stream_of source.old }
{
    let mut picture = Picture::<S>::new(alloc, source, options.max_pixels)?;
    let layout = options.layout_to(sink.container, source.layout());
    let mut maker = match Maker::<S, T>::new(alloc, options, source.header(), header, layout) {
        Ok(maker) => maker,
        Err(problem) => return Err(source.refused(problem)),
    };
    if !begin_copy(alloc, source, header, sink, options)? {
        return Ok(0);
    }
    let most = options.count.unwrap_or(u64::MAX);
    edit_frames(source, &mut picture, &mut maker, sink, most, progress)
}

/// Writes the header and skips [`CopyOptions::skip`] frames. Returns whether the source had that many frames.
fn begin_copy<R: io::Read, W: io::Write>(
    alloc: Global,
    source: &mut Source<R>,
    header: &StreamHeader,
    sink: &mut Sink<W>,
    options: &CopyOptions,
) -> Result<bool, StreamError>
    requires { sink.old.container ≡ Container.Y4m → IsWritable header.now }
    ensures begun { IfOk result (Begins source.old.container source.old.frame_len
        (bytes_left R.remaining source.old) (bytes_left R.remaining source.new) options.now.skip) }
    ensures written { OnOk result (Appends (W.contents sink.old.writer.inner)
        (W.contents sink.new.writer.inner) (header_bytes sink.old.container header.now)) }
    ensures stopped { IfErr result (StopsCopy source.new sink.new) }
    ensures broken { OnErr result (BreaksCopy source.old.container source.old.frame_len
        (bytes_left R.remaining source.old) options.now.skip (limit_of options.now)
        (counts_of source.old sink.old) (counts_of source.new sink.new)) }
    ensures same { stream_of source.new ≡ stream_of source.old }
    ensures container { sink.new.container ≡ sink.old.container }
    ensures counted { IfOk result (λ more. more ≡ true
        → source.new.frames ≡ min (source.old.frames + options.now.skip) most_frames) }
    ensures unwritten { sink.new.frames ≡ sink.old.frames }
{
    sink.write_header(alloc, header)?;
    let skipped = skip_frames(source, options.skip, &mut Silent)?;
    if skipped < options.skip {
        return Ok(false);
    }
    Ok(true)
}

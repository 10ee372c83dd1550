//! Reads and writes streams: the header first, then frame by frame.
ghost use Rattle.std.specs.Prelude.{ℕ, ◌≡◌, ◌≤◌, ◌↔◌, ◌++◌, ◌∷◌, [], codes, false, length, IfOk, IfErr, IsTrue, MatchResult, OnOk, OnErr};
ghost use Rattle.std.specs.Io.KnownBytes.{Appends, Consumes};
ghost use Rattle.v_frame.specs.Prelude.{isize_max, KeepsBorders, tables_of};
ghost use Rattle.v_frame_planar.specs.Planar.{planar_bytes, sizes_of};
ghost use Rattle.v_frame_y4m.specs.Ascii.{line_feed};
ghost use Rattle.v_frame_y4m.specs.Header.{header_line, IsWritable};
ghost use Rattle.v_frame_y4m.specs.Streams.{IsFrameLine, MayStopInBytes, MayStopInFrame, MayStopInHeader, MayStopWritingFrame, MayStopWritingHeader, ReadsFrame, ReadsHeader, TellsStreamCause};

use crate::error::Y4mError;
use crate::header::StreamHeader;
use crate::line::header_line_with_newline;
use crate::lines::read_line;
use crate::parsing::parse_header;
use std::alloc::Global;
use std::io;
use v_frame::frame::Frame;
use v_frame::pixel::Pixel;
use v_frame_planar::{Counted, PlanarError, planar_len};

/// The largest number of bytes of a line that is accepted, without its line feed.
pub const MAX_LINE_BYTES: usize = 1024;

/// Reads the header line of a stream. Nothing after its line feed is read.
///
/// The reader is called for one byte at a time. To avoid a system call for each byte, put a `BufReader` into the [`Counted`].
///
/// # Errors
///
/// - [`Y4mError::LineTooLong`] if the first 1025 bytes contain no line feed.
/// - [`Y4mError::UnfinishedLine`] if the stream ends before a line feed.
/// - [`Y4mError::Header`] if the line is not a valid header, or if a memory allocation fails.
/// - [`PlanarError::Read`] in [`Y4mError::Planar`] if a read fails. An interrupted read counts as failed and is not retried.
///   [`Counted::last_failure`] returns the cause.
pub fn read_header<R: io::Read>(
    alloc: Global,
    reader: &mut Counted<R>,
) -> Result<StreamHeader, Y4mError>
    ensures read { IfOk result (ReadsHeader R.remaining reader.old reader.new) }
    ensures writable { IfOk result IsWritable }
    ensures uncounted { OnOk result (reader.new.failures ≡ reader.old.failures) }
    ensures error { IfErr result (MayStopInHeader R.remaining reader.old reader.new) }
    ensures cause { MatchResult result (λ _. reader.new.last_failure ≡ reader.old.last_failure)
        (TellsStreamCause reader.old.last_failure reader.new.last_failure) }
{
    let mut line = [0; MAX_LINE_BYTES];
    let Some(length) = read_line(reader, &mut line)? else {
        return Err(Y4mError::UnfinishedLine);
    };
    Ok(parse_header(alloc, &line[..length])?)
}

/// Writes the header line of a stream, with its line feed. The header must be writable, which [`StreamHeader::is_writable`]
/// tests.
///
/// The parameters are written in the order of ffmpeg: W, H, F, I, A, C and each X. So a header that was read from a line in
/// this order is written as the same bytes.
///
/// # Errors
///
/// Errors are in [`Y4mError::Planar`]:
///
/// - [`PlanarError::OutOfMemory`] if a memory allocation fails. Nothing was written then.
/// - [`PlanarError::Write`] if a write fails. An interrupted write counts as failed and is not retried.
///   [`Counted::last_failure`] returns the cause.
/// - [`PlanarError::WriteZero`] if a write accepts none of the bytes.
///
/// After the last two, part of the line may have been written.
pub fn write_header<W: io::Write>(
    alloc: Global,
    writer: &mut Counted<W>,
    header: &StreamHeader,
) -> Result<(), Y4mError>
    requires { IsWritable header.now }
    ensures ok { OnOk result (Appends (W.contents writer.old.inner)
        (W.contents writer.new.inner) (header_line header.now ++ line_feed ∷ [])) }
    ensures uncounted { OnOk result (writer.new.failures ≡ writer.old.failures) }
    ensures error { IfErr result (MayStopWritingHeader W.contents writer.old writer.new
        (header_line header.now ++ line_feed ∷ [])) }
    ensures cause { MatchResult result (λ _. writer.new.last_failure ≡ writer.old.last_failure)
        (TellsStreamCause writer.old.last_failure writer.new.last_failure) }
{
    let line = header_line_with_newline(alloc, header)?;
    writer.write_all(line.as_slice())?;
    Ok(())
}

/// Reads the next frame, which is a `FRAME` line and the planar bytes after it, into `frame`. Returns `false` if the reader was
/// at its end.
///
/// The sizes of the planes of `frame` determine how many bytes are read. [`StreamHeader::frame`] allocates a frame with the
/// right sizes. Nothing after the frame is read. The padding of `frame` is unchanged. Parameters after `FRAME` are ignored.
///
/// # Errors
///
/// - [`Y4mError::NoFrame`] if the next line is not a `FRAME` line.
/// - [`Y4mError::LineTooLong`] or [`Y4mError::UnfinishedLine`] if the line has no line feed within the limit, or before the end
///   of the stream.
/// - [`Y4mError::Planar`] with an error of [`v_frame_planar::read_frame`]. It is `Truncated` also if the stream ends right
///   after the line.
///
/// After an error, `frame` is unchanged.
pub fn read_frame<T: Pixel, R: io::Read>(
    alloc: Global,
    reader: &mut Counted<R>,
    frame: &mut Frame<T>,
) -> Result<bool, Y4mError>
    ensures read { IfOk result (ReadsFrame R.remaining reader.old reader.new
        (planar_bytes T.form (tables_of frame.new))) }
    ensures uncounted { OnOk result (reader.new.failures ≡ reader.old.failures) }
    ensures at_end { IfOk result (λ more. more ≡ false → frame.new ≡ frame.old) }
    ensures borders { KeepsBorders frame.old frame.new }
    ensures sizes { sizes_of (tables_of frame.new) ≡ sizes_of (tables_of frame.old) }
    ensures error { IfErr result (MayStopInFrame R.remaining reader.old reader.new
        (length (planar_bytes T.form (tables_of frame.old)))) }
    ensures cause { MatchResult result (λ _. reader.new.last_failure ≡ reader.old.last_failure)
        (TellsStreamCause reader.old.last_failure reader.new.last_failure) }
    ensures unread { OnErr result (frame.new ≡ frame.old) }
{
    let more = read_frame_line(reader)?;
    if !more {
        return Ok(false);
    }
    read_planar(alloc, reader, frame)?;
    Ok(true)
}

/// Reads the line in front of a frame, which is `FRAME` and its parameters. Returns `false` if the reader was at its end.
///
/// [`read_frame`] reads this line together with the bytes of the frame. Call `read_frame_line` to skip a frame or to copy its
/// bytes. [`StreamHeader::frame_len`] returns the number of bytes that follow.
///
/// # Errors
///
/// - [`Y4mError::NoFrame`] if the next line is not a `FRAME` line.
/// - [`Y4mError::LineTooLong`] or [`Y4mError::UnfinishedLine`] if the line has no line feed within the limit, or before the end
///   of the stream.
/// - [`PlanarError::Read`] in [`Y4mError::Planar`] if a read fails. An interrupted read counts as failed and is not retried.
///   [`Counted::last_failure`] returns the cause.
pub fn read_frame_line<R: io::Read>(reader: &mut Counted<R>) -> Result<bool, Y4mError>
    ensures read { IfOk result (ReadsFrame R.remaining reader.old reader.new []) }
    ensures uncounted { OnOk result (reader.new.failures ≡ reader.old.failures) }
    ensures error { IfErr result (λ error. (n : ℕ)
        → MayStopInFrame R.remaining reader.old reader.new n error) }
    ensures cause { MatchResult result (λ _. reader.new.last_failure ≡ reader.old.last_failure)
        (TellsStreamCause reader.old.last_failure reader.new.last_failure) }
{
    let mut line = [0; MAX_LINE_BYTES];
    match read_line(reader, &mut line)? {
        Some(length) if is_frame_line(&line[..length]) => Ok(true),
        Some(_) => Err(Y4mError::NoFrame),
        None => Ok(false),
    }
}

/// Returns whether `line`, which has no line feed, is a line in front of a frame: `FRAME`, optionally followed by a space and
/// parameters.
pub fn is_frame_line(line: &[u8]) -> bool
    ensures { IsTrue result ↔ IsFrameLine line.now }
{
    match line.strip_prefix(b"FRAME") {
        Some(rest) => rest.is_empty() || rest[0] == b' ',
        None => false,
    }
}

/// Reads the planar bytes that must follow a `FRAME` line.
fn read_planar<T: Pixel, R: io::Read>(
    alloc: Global,
    reader: &mut Counted<R>,
    frame: &mut Frame<T>,
) -> Result<(), Y4mError>
    ensures read { OnOk result (Consumes (R.remaining reader.old.inner) (R.remaining reader.new.inner)
        (planar_bytes T.form (tables_of frame.new))) }
    ensures uncounted { OnOk result (reader.new.failures ≡ reader.old.failures) }
    ensures borders { KeepsBorders frame.old frame.new }
    ensures sizes { sizes_of (tables_of frame.new) ≡ sizes_of (tables_of frame.old) }
    ensures error { IfErr result (MayStopInBytes R.remaining reader.old reader.new
        (length (planar_bytes T.form (tables_of frame.old)))) }
    ensures cause { MatchResult result (λ _. reader.new.last_failure ≡ reader.old.last_failure)
        (TellsStreamCause reader.old.last_failure reader.new.last_failure) }
    ensures unread { OnErr result (frame.new ≡ frame.old) }
{
    if v_frame_planar::read_frame(alloc, reader, frame)? {
        return Ok(());
    }
    Err(nothing_found(frame))
}

/// Returns the error of a stream that ends right after a `FRAME` line.
fn nothing_found<T: Pixel>(frame: &Frame<T>) -> Y4mError
    requires { length (planar_bytes T.form (tables_of frame.now)) ≤ isize_max }
    ensures { result ≡ Y4mError.Planar
        (PlanarError.Truncated (length (planar_bytes T.form (tables_of frame.now))) 0) }
{
    Y4mError::Planar(PlanarError::Truncated {
        expected: planar_len(frame),
        found: 0,
    })
}

/// Writes a frame: the line `FRAME`, and the planar bytes.
///
/// # Errors
///
/// Errors are in [`Y4mError::Planar`]:
///
/// - [`PlanarError::Write`] if a write fails. An interrupted write counts as failed and is not retried.
///   [`Counted::last_failure`] returns the cause.
/// - [`PlanarError::WriteZero`] if a write accepts none of the bytes.
///
/// Part of the frame may have been written then.
pub fn write_frame<T: Pixel, W: io::Write>(
    writer: &mut Counted<W>,
    frame: &Frame<T>,
) -> Result<(), Y4mError>
    ensures ok { OnOk result (Appends (W.contents writer.old.inner)
        (W.contents writer.new.inner) (codes "FRAME" ++ line_feed ∷ planar_bytes T.form (tables_of frame.now))) }
    ensures uncounted { OnOk result (writer.new.failures ≡ writer.old.failures) }
    ensures error { IfErr result (MayStopWritingFrame W.contents writer.old writer.new
        (codes "FRAME" ++ line_feed ∷ planar_bytes T.form (tables_of frame.now))) }
    ensures cause { MatchResult result (λ _. writer.new.last_failure ≡ writer.old.last_failure)
        (TellsStreamCause writer.old.last_failure writer.new.last_failure) }
{
    writer.write_all(b"FRAME\n")?;
    v_frame_planar::write_frame(writer, frame)?;
    Ok(())
}

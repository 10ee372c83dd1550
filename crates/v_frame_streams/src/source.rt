//! Streams that are read: the header first, then frame by frame.
ghost use Rattle.std.specs.Prelude.{◌≡◌, ◌<◌, IfErr, IfOk, MatchResult};
ghost use Rattle.std.specs.Io.Buffered.{reader_remaining};
ghost use Rattle.v_frame_y4m.specs.Frames.{frame_byte_count};
ghost use Rattle.v_frame_y4m.specs.Header.{IsWritable};
ghost use Rattle.std.proofs.Props.{props};
ghost use Rattle.v_frame_streams.specs.Errors.{FailsToRead, HasLength, IsAtStart, StopsFrame, StopsInside, StopsOpening};
ghost use Rattle.v_frame_streams.specs.Layouts.{HoldsColor};
ghost use Rattle.v_frame_streams.specs.Streams.{ReadsHeaderLine};

use crate::colors::holds_color;
use crate::error::{Problem, StreamError};
use crate::stream::{Container, Place};
use std::alloc::Global;
use std::io;
use std::io::BufReader;
use v_frame_planar::{Counted, PlanarError, read_until_full};
use v_frame_semi_planar::SemiPlanarFormat;
use v_frame_y4m::{StreamHeader, Y4mError, read_lax_frame_line, read_lax_header};

/// A stream that is read, frame by frame. Its header is already known.
#[derive(Drop)]
pub struct Source<R> {
    place: Place,
    container: Container,
    header: StreamHeader,
    layout: Option<SemiPlanarFormat>,
    frame_len: usize,
    frames: u64,
    is_lax: bool,
    reader: Counted<BufReader<R>>,
    ghost sized: { frame_len ≡ frame_byte_count header },
    ghost some: { 0 < frame_len },
    ghost holds: { HoldsColor layout header.color } by { Prim.hlevel props },
}

impl<R: io::Read> Source<R> {
    ghost use Rattle.std.specs.Prelude.{◌≡◌, ◌+◌, ◌≤◌, ◌<◌, [], false, true, length, take, IfErr, IfOk, IsErrAnd, MatchBool, None, OnOk};
    ghost use Rattle.std.specs.Io.KnownBytes.{Consumes, IsAtEnd};
    ghost use Rattle.v_frame_planar.specs.declared.error.PlanarError.TheVariants.{Truncated};
    ghost use Rattle.v_frame_y4m.specs.declared.error.Y4mError.TheVariants.{Planar};
    ghost use Rattle.v_frame_streams.specs.Stops.{IsAtNextFrame};
    ghost use Rattle.v_frame_streams.specs.Sources.{bytes_left, stream_of, unread_of, IsOpened};
    ghost use Rattle.v_frame_streams.specs.Streams.{frames_after, ReadsLine, ReadsNext};

    /// Opens a YUV4MPEG2 stream: reads the header line, strict or lax, and leaves the frames to be read. The frames are planar.
    ///
    /// Errors of this stream report `place` as the stream in which they happened. The reader is buffered, so more bytes than
    /// the header line may be read from it.
    ///
    /// # Errors
    ///
    /// - [`Problem::Stream`] with an error of [`read_lax_header`] if the header line cannot be read.
    /// - [`Problem::TooLarge`] if a frame has no bytes, or more than `usize::MAX`.
    /// - [`Problem::OutOfMemory`] if a memory allocation fails.
    pub fn y4m(alloc: Global, place: Place, reader: R) -> Result<Self, StreamError>
    where
        R: Drop,
        ensures opened { IfOk result (IsOpened place Container.Y4m) }
        ensures read { IfOk result (λ source. ReadsHeaderLine (R.remaining reader) (bytes_left R.remaining source)
            source.header source.is_lax) }
        ensures writable { IfOk result (λ source. IsWritable source.header) }
        ensures planar { IfOk result (λ source. source.layout ≡ None) }
        ensures refused { IfErr result (λ error. StopsOpening (R.remaining reader) error.problem) }
        ensures stopped { IfErr result (IsAtStart place) }
    {
        let mut reader = buffered(alloc, place, reader)?;
        let (header, is_lax) = read_header(alloc, place, &mut reader)?;
        let frame_len = frame_len_of(place, &header)?;
        Ok(Source {
            place,
            container: Container::Y4m,
            header,
            layout: None,
            frame_len,
            frames: 0,
            is_lax,
            reader,
        })
    }

    /// Opens headerless raw video. `header` describes its frames, and `layout` is their semi-planar layout, or `None` if they
    /// are planar. Nothing is read.
    ///
    /// Errors of this stream report `place` as the stream in which they happened.
    ///
    /// # Errors
    ///
    /// The first of these that applies:
    ///
    /// - [`Problem::OtherLayout`] if the chroma subsampling or the bit depth of `layout` differs from that of `header`.
    /// - [`Problem::TooLarge`] if a frame has no bytes, or more than `usize::MAX`.
    /// - [`Problem::OutOfMemory`] if a memory allocation fails.
    pub fn raw(
        alloc: Global,
        place: Place,
        header: StreamHeader,
        layout: Option<SemiPlanarFormat>,
        reader: R,
    ) -> Result<Self, StreamError>
    where
        R: Drop,
        ensures opened { IfOk result (IsOpened place Container.Raw) }
        ensures header { IfOk result (λ source. source.header ≡ header) }
        ensures strict { IfOk result (λ source. source.is_lax ≡ false) }
        ensures layout { IfOk result (λ source. source.layout ≡ layout) }
        ensures holds { OnOk result (HoldsColor layout header.color) }
        ensures other_layout { ¬ (HoldsColor layout header.color)
            → IfErr result (λ error. error.problem ≡ Problem.OtherLayout) }
        ensures too_large { HoldsColor layout header.color → ¬ (HasLength header)
            → IsErrAnd result (λ error. error.problem ≡ Problem.TooLarge) }
        ensures taken { HoldsColor layout header.color → HasLength header
            → IfErr result (λ error. error.problem ≡ Problem.OutOfMemory) }
        ensures unread { IfOk result (λ source. bytes_left R.remaining source ≡ R.remaining reader) }
        ensures stopped { IfErr result (IsAtStart place) }
    {
        if !holds_color(layout, header.color) {
            return Err(StreamError::at_start(place, Problem::OtherLayout));
        }
        let frame_len = frame_len_of(place, &header)?;
        let reader = buffered(alloc, place, reader)?;
        Ok(Source {
            place,
            container: Container::Raw,
            header,
            layout,
            frame_len,
            frames: 0,
            is_lax: false,
            reader,
        })
    }

    /// Returns the header.
    pub fn header(&self) -> &StreamHeader
        ensures { result.now ≡ self.now.header }
    {
        &self.header
    }

    /// Returns whether the header line was lax: not in the strict form, but with a clear meaning. The lines in front of frames
    /// are not considered.
    pub fn is_lax(&self) -> bool
        ensures { result ≡ self.now.is_lax }
    {
        self.is_lax
    }

    /// Returns the semi-planar layout of the frames, or `None` if they are planar.
    pub fn layout(&self) -> Option<SemiPlanarFormat>
        ensures value { result ≡ self.now.layout }
        ensures holds { HoldsColor result self.now.header.color }
    {
        self.layout
    }

    /// Returns the number of bytes of a frame, without the line in front of it.
    pub fn frame_len(&self) -> usize
        ensures value { result ≡ self.now.frame_len }
        ensures some { 0 < result }
    {
        self.frame_len
    }

    /// Returns the container of the stream.
    pub fn container(&self) -> Container
        ensures { result ≡ self.now.container }
    {
        self.container
    }

    /// Returns the number of frames read whole, skipped frames included. It saturates at `u64::MAX`.
    pub fn frames(&self) -> u64
        ensures { result ≡ self.now.frames }
    {
        self.frames
    }

    /// Counts a frame that was read whole.
    pub(crate) fn end_frame(&mut self)
        ensures left { bytes_left R.remaining self.new ≡ bytes_left R.remaining self.old }
        ensures same { stream_of self.new ≡ stream_of self.old }
        ensures frames { self.new.frames ≡ frames_after self.old.frames true }
        ensures failures { self.new.reader.failures ≡ self.old.reader.failures }
    {
        self.frames = self.frames.saturating_add(1);
    }

    /// Reads the line in front of the next frame, if the container has one, and then fills `front` with the first bytes of the
    /// frame. `front` is not empty and no longer than a frame. Returns `false` if the stream was at its end.
    pub(crate) fn begin_frame(&mut self, front: &mut [u8]) -> Result<bool, StreamError>
        requires some { 0 < length front.old }
        requires within { length front.old ≤ self.old.frame_len }
        ensures read { IfOk result (ReadsNext (bytes_left R.remaining self.old)
            (bytes_left R.remaining self.new) self.old.container front.new) }
        ensures uncounted { OnOk result (self.new.reader.failures ≡ self.old.reader.failures) }
        ensures problem { IfErr result (λ error. StopsFrame self.old.container
            (unread_of R.remaining self.old) (unread_of R.remaining self.new) self.old.frame_len
            error.problem) }
        ensures stopped { IfErr result (IsAtNextFrame self.new) }
        ensures same { stream_of self.new ≡ stream_of self.old }
        ensures frames { self.new.frames ≡ self.old.frames }
        ensures size { length front.new ≡ length front.old }
    {
        match self.container {
            Container::Y4m => {
                if !self.read_line()? {
                    return Ok(false);
                }
                self.read_part(0, front)?;
                Ok(true)
            }
            Container::Raw => {
                let found = self.fill(front)?;
                if found == 0 {
                    return Ok(false);
                }
                if found < front.len() {
                    return Err(self.truncated(found));
                }
                Ok(true)
            }
        }
    }

    /// Fills `part` with the next bytes of a frame of which `before` bytes have been read.
    pub(crate) fn read_part(&mut self, before: usize, part: &mut [u8]) -> Result<(), StreamError>
        requires { before + length part.old ≤ self.old.frame_len }
        ensures read { OnOk result (Consumes (bytes_left R.remaining self.old)
            (bytes_left R.remaining self.new) part.new) }
        ensures uncounted { OnOk result (self.new.reader.failures ≡ self.old.reader.failures) }
        ensures problem { IfErr result (λ error. StopsInside before (unread_of R.remaining self.old)
            (unread_of R.remaining self.new) self.old.frame_len error.problem) }
        ensures stopped { IfErr result (IsAtNextFrame self.new) }
        ensures same { stream_of self.new ≡ stream_of self.old }
        ensures frames { self.new.frames ≡ self.old.frames }
        ensures size { length part.new ≡ length part.old }
    {
        let found = self.fill(part)?;
        if found < part.len() {
            return Err(self.truncated(before + found));
        }
        Ok(())
    }

    /// Reads the line in front of a frame, strict or lax. Returns `false` if the stream was at its end.
    fn read_line(&mut self) -> Result<bool, StreamError>
        ensures read { IfOk result (ReadsLine (bytes_left R.remaining self.old)
            (bytes_left R.remaining self.new)) }
        ensures uncounted { OnOk result (self.new.reader.failures ≡ self.old.reader.failures) }
        ensures problem { IfErr result (λ error. StopsFrame Container.Y4m
            (unread_of R.remaining self.old) (unread_of R.remaining self.new) self.old.frame_len
            error.problem) }
        ensures stopped { IfErr result (IsAtNextFrame self.new) }
        ensures same { stream_of self.new ≡ stream_of self.old }
        ensures frames { self.new.frames ≡ self.old.frames }
    {
        match read_lax_frame_line(&mut self.reader) {
            Ok(more) => Ok(more),
            Err(error) => Err(self.stopped(error)),
        }
    }

    /// Reads until `part` is full or the stream ends, and returns the number of bytes read.
    fn fill(&mut self, part: &mut [u8]) -> Result<usize, StreamError>
        ensures bound { IfOk result (λ found. found ≤ length part.new) }
        ensures read { IfOk result (λ found. Consumes (bytes_left R.remaining self.old)
            (bytes_left R.remaining self.new) (take found part.new)) }
        ensures at_end { IfOk result (λ found. found < length part.new
            → IsAtEnd (bytes_left R.remaining self.new)) }
        ensures uncounted { OnOk result (self.new.reader.failures ≡ self.old.reader.failures) }
        ensures problem { IfErr result (λ error. FailsToRead (unread_of R.remaining self.old)
            (unread_of R.remaining self.new) error.problem) }
        ensures stopped { IfErr result (IsAtNextFrame self.new) }
        ensures same { stream_of self.new ≡ stream_of self.old }
        ensures frames { self.new.frames ≡ self.old.frames }
        ensures size { length part.new ≡ length part.old }
    {
        match read_until_full(&mut self.reader, part) {
            Ok(found) => Ok(found),
            Err(error) => Err(self.stopped(Y4mError::Planar(error))),
        }
    }

    /// Returns the error of a stream that ended inside a frame, of which `found` bytes were read.
    fn truncated(&self, found: usize) -> StreamError
        ensures place { IsAtNextFrame self.now result }
        ensures problem { result.problem ≡ Problem.Stream (Planar (Truncated self.now.frame_len found)) }
    {
        self.stopped(Y4mError::Planar(PlanarError::Truncated {
            expected: self.frame_len,
            found,
        }))
    }

    /// Returns the error of a next frame that could not be read.
    fn stopped(&self, error: Y4mError) -> StreamError
        ensures place { IsAtNextFrame self.now result }
        ensures problem { result.problem ≡ Problem.Stream error }
    {
        self.refused(Problem::Stream(error))
    }

    /// Returns an error at the next frame, which cannot be processed because of `problem`.
    pub(crate) fn refused(&self, problem: Problem) -> StreamError
        ensures place { IsAtNextFrame self.now result }
        ensures problem { result.problem ≡ problem }
    {
        StreamError::at_frame(self.place, self.frames, problem, self.reader.last_failure())
    }
}

/// Reads the header line of a stream, strict or lax. The second part of the result is true if the line was lax.
fn read_header<R: io::Read>(
    alloc: Global,
    place: Place,
    reader: &mut Counted<BufReader<R>>,
) -> Result<(StreamHeader, bool), StreamError>
    ensures read { IfOk result (λ found. ReadsHeaderLine
        (reader_remaining R.remaining reader.old.inner)
        (reader_remaining R.remaining reader.new.inner) found.0 found.1) }
    ensures writable { IfOk result (λ found. IsWritable found.0) }
    ensures refused { IfErr result (λ error.
        StopsOpening (reader_remaining R.remaining reader.old.inner) error.problem) }
    ensures stopped { IfErr result (IsAtStart place) }
{
    match read_lax_header(alloc, reader) {
        Ok((header, is_strict)) => Ok((header, !is_strict)),
        Err(error) => {
            let last_failure = reader.last_failure();
            Err(StreamError::at_frame(place, 0, Problem::Stream(error), last_failure))
        }
    }
}

/// Returns the number of bytes of each frame of a stream.
fn frame_len_of(place: Place, header: &StreamHeader) -> Result<usize, StreamError>
    ensures counted { MatchResult result (λ len. (len ≡ frame_byte_count header.now) × HasLength header.now)
        (λ error. (error.problem ≡ Problem.TooLarge) × ¬ (HasLength header.now)) }
    ensures stopped { IfErr result (IsAtStart place) }
{
    match header.frame_len() {
        Some(frame_len) if frame_len > 0 => Ok(frame_len),
        _ => Err(StreamError::at_start(place, Problem::TooLarge)),
    }
}

/// Puts a buffer in front of a reader, so that reading a line does not take one system call for each byte.
fn buffered<R: io::Read + Drop>(
    alloc: Global,
    place: Place,
    reader: R,
) -> Result<Counted<BufReader<R>>, StreamError>
    ensures buffered { IfOk result (λ buffered. reader_remaining R.remaining buffered.inner
        ≡ R.remaining reader) }
    ensures refused { IfErr result (λ error. error.problem ≡ Problem.OutOfMemory) }
    ensures stopped { IfErr result (IsAtStart place) }
{
    match BufReader::new(alloc, reader) {
        Ok(reader) => Ok(Counted::new(reader)),
        Err(_) => Err(StreamError::at_start(place, Problem::OutOfMemory)),
    }
}

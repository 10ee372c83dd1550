//! Streams that are written: the header first, then frame by frame.
ghost use Rattle.std.specs.Prelude.{◌≡◌, ◌↔◌, ◌++◌, [], length, take, true, IfErr, IsTrue, OnErr, OnOk};
ghost use Rattle.std.specs.Io.KnownBytes.{Appends};
ghost use Rattle.v_frame.specs.Prelude.{tables_of};
ghost use Rattle.v_frame_planar.specs.Counted.{AppendsBeginning};
ghost use Rattle.v_frame_planar.specs.Planar.{planar_bytes};
ghost use Rattle.v_frame_semi_planar.specs.Format.{HasLayout};
ghost use Rattle.v_frame_semi_planar.specs.SemiPlanar.{semi_planar_bytes};
ghost use Rattle.v_frame_streams.specs.Errors.{FailsToWrite, FailsToWriteHeader};
ghost use Rattle.v_frame_streams.specs.Stops.{IsAtNextWritten};
ghost use Rattle.v_frame_streams.specs.Sources.{TakesHeader};
ghost use Rattle.v_frame_streams.specs.Streams.{frame_line, frames_after, header_bytes, written_bytes};

use crate::error::{Problem, StreamError};
use crate::stream::{Container, Place};
use std::alloc::Global;
use std::io;
use v_frame::frame::Frame;
use v_frame::pixel::Pixel;
use v_frame_planar::{Counted, PlanarError, WriteFault};
use v_frame_semi_planar::{SemiPlanarError, SemiPlanarFormat, write_frame};
use v_frame_y4m::{StreamHeader, Y4mError, write_header};

/// A stream that is written, frame by frame.
#[derive(Drop)]
pub struct Sink<W> {
    /// The container of the stream.
    pub container: Container,
    /// The number of frames written whole. It saturates at `u64::MAX`.
    pub frames: u64,
    /// The writer that receives the bytes.
    pub writer: Counted<W>,
}

impl<W: io::Write> Sink<W> {
    /// Returns a sink that has written nothing.
    pub fn new(container: Container, writer: W) -> Self
        ensures { result ≡ record {
          container = container;
          frames = 0;
          writer = record { inner = writer; failures = 0; last_failure = None };
        } }
    {
        Sink {
            container,
            frames: 0,
            writer: Counted::new(writer),
        }
    }

    /// Returns whether [`write_header`](Self::write_header) can write this header. Raw video has no header line and accepts any
    /// header. For a YUV4MPEG2 stream, [`StreamHeader::is_writable`] decides.
    pub fn takes_header(&self, header: &StreamHeader) -> bool
        ensures { IsTrue result ↔ TakesHeader self.now header.now }
    {
        self.container == Container::Raw || header.is_writable()
    }

    /// Writes the header line of a YUV4MPEG2 stream. Raw video has none, and nothing is written. The header must be writable,
    /// which [`takes_header`](Self::takes_header) tests.
    ///
    /// # Errors
    ///
    /// [`Problem::Stream`] with an error of [`write_header`]. Part of the line may have been written.
    pub fn write_header(&mut self, alloc: Global, header: &StreamHeader) -> Result<(), StreamError>
        requires { TakesHeader self.old header.now }
        ensures ok { OnOk result (Appends (W.contents self.old.writer.inner)
            (W.contents self.new.writer.inner) (header_bytes self.old.container header.now)) }
        ensures problem { IfErr result (λ error. FailsToWriteHeader W.contents self.old.writer
            self.new.writer self.old.container header.now error.problem) }
        ensures stopped { IfErr result (IsAtNextWritten self.new) }
        ensures container { self.new.container ≡ self.old.container }
        ensures frames { self.new.frames ≡ self.old.frames }
    {
        if self.container == Container::Raw {
            return Ok(());
        }
        match write_header(alloc, &mut self.writer, header) {
            Ok(()) => Ok(()),
            Err(error) => Err(self.stopped(error)),
        }
    }

    /// Writes the planes of `frame` one after the other. In a YUV4MPEG2 stream, the `FRAME` line comes first.
    ///
    /// # Errors
    ///
    /// [`Problem::Stream`] with an error of [`v_frame_planar::write_frame`]. Part of the frame may have been written.
    pub fn write_frame<T: Pixel>(&mut self, frame: &Frame<T>) -> Result<(), StreamError>
        ensures ok { OnOk result (Appends (W.contents self.old.writer.inner)
            (W.contents self.new.writer.inner)
            (written_bytes self.old.container (planar_bytes T.form (tables_of frame.now)))) }
        ensures beginning { OnErr result (AppendsBeginning (W.contents self.old.writer.inner)
            (W.contents self.new.writer.inner)
            (written_bytes self.old.container (planar_bytes T.form (tables_of frame.now)))) }
        ensures problem { IfErr result (λ error. FailsToWrite W.contents self.old.writer
            self.new.writer (written_bytes self.old.container (planar_bytes T.form (tables_of frame.now)))
            error.problem) }
        ensures stopped { IfErr result (IsAtNextWritten self.new) }
        ensures container { self.new.container ≡ self.old.container }
        ensures counted { OnOk result (self.new.frames ≡ frames_after self.old.frames true) }
        ensures uncounted { OnErr result (self.new.frames ≡ self.old.frames) }
    {
        let written = match self.container {
            Container::Y4m => v_frame_y4m::write_frame(&mut self.writer, frame),
            Container::Raw => match v_frame_planar::write_frame(&mut self.writer, frame) {
                Ok(()) => Ok(()),
                Err(error) => Err(Y4mError::Planar(error)),
            },
        };
        match written {
            Ok(()) => {
                self.frames = self.frames.saturating_add(1);
                Ok(())
            }
            Err(error) => Err(self.stopped(error)),
        }
    }

    /// Writes a frame in a semi-planar layout. The layout must fit the frame, which
    /// [`check_layout`](v_frame_semi_planar::check_layout) tests.
    ///
    /// # Errors
    ///
    /// [`Problem::Stream`] with an error of [`v_frame_semi_planar::write_frame`]. Part of the frame may have been written.
    pub(crate) fn write_layout<T: Pixel>(
        &mut self,
        frame: &Frame<T>,
        layout: SemiPlanarFormat,
    ) -> Result<(), StreamError>
        requires { HasLayout T.form.size layout frame.now }
        ensures ok { OnOk result (Appends (W.contents self.old.writer.inner)
            (W.contents self.new.writer.inner) (written_bytes self.old.container
            (semi_planar_bytes T.form layout (tables_of frame.now)))) }
        ensures stopped { IfErr result (IsAtNextWritten self.new) }
        ensures container { self.new.container ≡ self.old.container }
        ensures counted { OnOk result (self.new.frames ≡ frames_after self.old.frames true) }
        ensures uncounted { OnErr result (self.new.frames ≡ self.old.frames) }
    {
        self.begin_frame()?;
        match write_frame(&mut self.writer, frame, layout) {
            Ok(()) => {
                self.end_frame();
                Ok(())
            }
            Err(SemiPlanarError::Planar(error)) => Err(self.stopped(Y4mError::Planar(error))),
            Err(_) => unreachable!(),
        }
    }

    /// Writes the line in front of a frame, if the container has one.
    pub(crate) fn begin_frame(&mut self) -> Result<(), StreamError>
        ensures ok { OnOk result (Appends (W.contents self.old.writer.inner)
            (W.contents self.new.writer.inner) (frame_line self.old.container)) }
        ensures stopped { IfErr result (IsAtNextWritten self.new) }
        ensures container { self.new.container ≡ self.old.container }
        ensures frames { self.new.frames ≡ self.old.frames }
    {
        match self.container {
            Container::Y4m => self.write_part(b"FRAME\n"),
            Container::Raw => Ok(()),
        }
    }

    /// Writes some bytes of a frame.
    pub(crate) fn write_part(&mut self, bytes: &[u8]) -> Result<(), StreamError>
        ensures ok { OnOk result (Appends (W.contents self.old.writer.inner)
            (W.contents self.new.writer.inner) bytes.now) }
        ensures stopped { IfErr result (IsAtNextWritten self.new) }
        ensures container { self.new.container ≡ self.old.container }
        ensures frames { self.new.frames ≡ self.old.frames }
    {
        match self.writer.write_all(bytes) {
            Ok(()) => Ok(()),
            Err(fault) => Err(self.stopped(Y4mError::from(fault))),
        }
    }

    /// Counts a frame that was written whole.
    pub(crate) fn end_frame(&mut self)
        ensures written { W.contents self.new.writer.inner ≡ W.contents self.old.writer.inner }
        ensures container { self.new.container ≡ self.old.container }
        ensures frames { self.new.frames ≡ frames_after self.old.frames true }
    {
        self.frames = self.frames.saturating_add(1);
    }

    /// Returns an error at the next frame.
    fn stopped(&self, error: Y4mError) -> StreamError
        ensures place { IsAtNextWritten self.now result }
        ensures problem { result.problem ≡ Problem.Stream error }
    {
        StreamError::at_frame(
            Place::Output,
            self.frames,
            Problem::Stream(error),
            self.writer.last_failure(),
        )
    }
}

//! Errors of calls on streams, and where they happened.

use crate::stream::Place;
use std::{fmt, io};
use thiserror::Error;
use v_frame_planar::PlanarError;
use v_frame_y4m::Y4mError;

/// An error of a call on streams: the stream, the frame, the problem, and the kind of system error behind it.
#[derive(Debug, Drop)]
pub struct StreamError {
    /// The stream in which the error happened.
    pub place: Place,
    /// The number of frames of this stream that were read or written whole before the error.
    pub frames: u64,
    /// The problem.
    pub problem: Problem,
    /// The kind of error that the reader or the writer reported, if a read or a write failed.
    pub cause: Option<io::ErrorKind>,
}

impl StreamError {
    ghost use Rattle.std.specs.Prelude.{◌≡◌, None};
    ghost use Rattle.v_frame_streams.specs.Errors.{cause_of};

    /// Returns an error at the first frame of the stream `place`, with no system error behind it.
    pub fn at_start(place: Place, problem: Problem) -> Self
        ensures { result ≡ record { place = place; frames = 0; problem = problem; cause = None } }
    {
        StreamError {
            place,
            frames: 0,
            problem,
            cause: None,
        }
    }

    /// Returns an error at the next frame of a stream, after `frames` whole frames. `last_failure` becomes its cause if
    /// `problem` is a failed read or write. Otherwise an earlier call caused that failure, and it is ignored.
    pub(crate) fn at_frame(
        place: Place,
        frames: u64,
        problem: Problem,
        last_failure: Option<io::ErrorKind>,
    ) -> Self
        ensures { result ≡ record {
          place = place;
          frames = frames;
          problem = problem;
          cause = cause_of problem last_failure;
        } }
    {
        let cause = match &problem {
            Problem::Stream(Y4mError::Planar(PlanarError::Read | PlanarError::Write)) =>
                last_failure,
            _ => None,
        };
        StreamError {
            place,
            frames,
            problem,
            cause,
        }
    }
}

impl fmt::Display for StreamError {
    fn fmt<W: fmt::Write>(&self, f: &mut fmt::Formatter<W>) -> fmt::Result {
        let (frame, problem) = (self.frames.saturating_add(1), &self.problem);
        match &self.cause {
            Some(cause) => write!(f, "frame {frame}: {problem}: {cause}"),
            None => write!(f, "frame {frame}: {problem}"),
        }
    }
}

/// What went wrong with a stream.
#[derive(Debug, Drop, Error)]
pub enum Problem {
    /// The header or the next frame could not be read or written.
    #[error(transparent)]
    Stream(#[from] Y4mError),
    /// A frame has more bytes or pixels than the program can address, or it has no bytes.
    #[error("the frames are too large")]
    TooLarge,
    /// A picture has more luma pixels than the caller's limit for frames in memory. The number is the limit.
    #[error("the picture has more than {0} luma pixels")]
    TooManyPixels(usize),
    /// The crop has no column or no row.
    #[error("the crop is empty")]
    EmptyCrop,
    /// The crop is not inside the picture.
    #[error("the crop is not inside the picture")]
    CropOutside,
    /// The crop begins inside a chroma pixel.
    #[error("the crop begins inside a chroma pixel, which is {columns} luma columns wide and {rows} rows high")]
    CropMisaligned {
        /// The number of luma columns for each chroma column.
        columns: usize,
        /// The number of luma rows for each chroma row.
        rows: usize,
    },
    /// The frames of the two streams have different sizes.
    #[error("the streams have different sizes")]
    OtherSize,
    /// The two streams have different chroma formats.
    #[error("the streams have different chroma formats")]
    OtherChroma,
    /// The two streams have different bit depths.
    #[error("the streams have different bit depths")]
    OtherDepth,
    /// Semi-planar frames cannot be written to a YUV4MPEG2 stream.
    #[error("a YUV4MPEG2 stream has no semi-planar frames")]
    SemiPlanar,
    /// The chroma subsampling or the bit depth of a semi-planar layout differs from that of the header.
    #[error("the layout is for another chroma format or bit depth")]
    OtherLayout,
    /// No header line can describe the output.
    #[error("no header line can say this size or these extensions")]
    Unwritable,
    /// A memory allocation failed.
    #[error("out of memory")]
    OutOfMemory,
}

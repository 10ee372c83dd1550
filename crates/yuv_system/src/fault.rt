//! The errors that end a command.
ghost use Rattle.std.specs.Prelude.{◌≡◌, ◌↔◌, IsTrue};
ghost use Rattle.yuv_system.specs.Faults.{place_of, IsBroken};

use crate::nothing::NothingTaken;
use std::{fmt, io};
use v_frame_png::PngError;
use v_frame_streams::{Place, Problem, StreamError};
use v_frame_y4m::{HeaderError, Y4mError};
use yuv_files::{FileKind, SystemError, TargetError};
use yuv_pictures::PictureError;

/// The advice that is added to the message if a file is not a YUV4MPEG2 stream.
const NOT_A_STREAM: &str =
    "; for headerless video, add --raw WIDTHxHEIGHT:FORMAT; for other files, run 'ffmpeg -i FILE -f yuv4mpegpipe - | yuv COMMAND -'";

/// An error that ends a command.
#[derive(Drop)]
pub enum Fault {
    /// The file at this place can't be opened for reading.
    Open(Place, io::ErrorKind),
    /// The file at this place is standard input, which another file already uses.
    InputTwice(Place),
    /// The file at this place is read, and is also the file that the command writes to.
    ReadAndWritten(Place),
    /// The file at this place does not begin as a YUV4MPEG2 stream does.
    NotAStream(Place),
    /// The file at this place is empty, or is a stream that was closed.
    NoBytes(Place),
    /// The samples of U and V are interleaved in the stream at this place, so no plane has a checksum of its bytes.
    NoPlanes(Place),
    /// The header of a stream was not read.
    Header(StreamError),
    /// A stream was not read or written, or a report was not written.
    Stream(StreamError),
    /// The file was written, but the report about it was not written to standard output.
    Report(StreamError),
    /// The file to write can't be created.
    Create(io::ErrorKind),
    /// The file was written, but can't replace its target.
    Replace(io::ErrorKind),
    /// The file was written, but can't be copied to its target. The target then contains a part of it.
    Rewrite(io::ErrorKind),
    /// The command writes a file of this kind, and rejects its target.
    Target(FileKind, TargetError),
    /// The picture was not written.
    Picture(PictureError),
    /// No frame of the stream at this place was taken.
    Nothing(Place, NothingTaken),
    /// The stream at this place has only this number of frames, and the requested frame comes later.
    NoFrame(Place, u64),
    /// The requested frame has the number 0, but frames are counted from 1.
    FrameZero,
    /// A crop of the interlaced stream at `place` begins at row `from`, which swaps its fields. The nearest row that does not is
    /// `nearest`.
    SwapsFields {
        /// The stream.
        place: Place,
        /// The first row of the crop.
        from: usize,
        /// The nearest row that keeps the fields.
        nearest: usize,
    },
    /// A plane of the stream at this place is smaller than a window of structural similarity.
    NoWindow(Place),
}

impl Fault {
    /// Returns the place of the file that the error concerns, or `None` if it concerns no file.
    pub fn place(&self) -> Option<Place>
        ensures { result ≡ place_of self.now }
    {
        match self {
            Fault::Open(place, _)
            | Fault::InputTwice(place)
            | Fault::ReadAndWritten(place)
            | Fault::NotAStream(place)
            | Fault::NoBytes(place)
            | Fault::NoPlanes(place)
            | Fault::Nothing(place, _)
            | Fault::NoFrame(place, _)
            | Fault::NoWindow(place) => Some(*place),
            Fault::SwapsFields { place, .. } => Some(*place),
            Fault::Header(error) | Fault::Stream(error) | Fault::Report(error) => {
                Some(error.place)
            }
            Fault::Picture(PictureError::NoPlane) => Some(Place::First),
            Fault::Create(_)
            | Fault::Replace(_)
            | Fault::Rewrite(_)
            | Fault::Target(_, _)
            | Fault::Picture(_) => Some(Place::Output),
            Fault::FrameZero => None,
        }
    }
}

impl Fault {
    /// Returns whether the reader of an output closed it, as `head` does.
    pub fn is_closed_pipe(&self) -> bool {
        match self {
            Fault::Stream(error) | Fault::Report(error) => {
                error.place == Place::Output && error.cause == Some(io::ErrorKind::BrokenPipe)
            }
            Fault::Picture(PictureError::Png(PngError::Write(error))) => {
                error.kind() == io::ErrorKind::BrokenPipe
            }
            _ => false,
        }
    }
}

impl From<StreamError> for Fault {
    fn from(error: StreamError) -> Self {
        Fault::Stream(error)
    }
}

impl From<PictureError> for Fault {
    fn from(error: PictureError) -> Self {
        Fault::Picture(error)
    }
}

// Written by hand: the derived implementation for this many variants takes longer to prove than a command.
impl fmt::Display for Fault {
    fn fmt<W: fmt::Write>(&self, f: &mut fmt::Formatter<W>) -> fmt::Result {
        match self {
            Fault::Open(_, kind) => write_failed(f, "cannot open", *kind),
            Fault::InputTwice(_) => f.write_str("standard input can be read only once"),
            Fault::ReadAndWritten(_) => f.write_str("cannot be read and written at once"),
            Fault::NotAStream(_) => {
                fmt::Display::fmt(&HeaderError::NotAStream, f)?;
                f.write_str(NOT_A_STREAM)
            }
            Fault::NoBytes(_) => f.write_str("nothing to read: it is empty or closed"),
            Fault::NoPlanes(_) => f.write_str("--planes requires planar video"),
            Fault::Header(error) => write_caused(f, error),
            Fault::Stream(error) | Fault::Report(error) => write_stream_error(f, error),
            Fault::Create(kind) => write_failed(f, "cannot create", *kind),
            Fault::Replace(kind) => write_failed(f, "cannot replace", *kind),
            Fault::Rewrite(kind) => {
                write_failed(
                    f,
                    "overwritten in part; the whole output is in its .partial file",
                    *kind,
                )
            }
            Fault::Target(written, error) => write_rejection(f, *written, *error),
            Fault::Picture(PictureError::Png(PngError::Write(error))) => {
                write_failed(f, "write failed", error.kind())
            }
            Fault::Picture(error) => fmt::Display::fmt(error, f),
            Fault::Nothing(_, nothing) => fmt::Display::fmt(nothing, f),
            Fault::NoFrame(_, 1) => f.write_str("the stream has only 1 frame"),
            Fault::NoFrame(_, frames) => write!(f, "the stream has only {frames} frames"),
            Fault::FrameZero => f.write_str("there is no frame 0: frames are counted from 1"),
            Fault::SwapsFields { from, nearest, .. } => write!(
                f,
                "--crop from row {from} swaps the fields of interlaced video; begin at row {nearest}, or add --force"
            ),
            Fault::NoWindow(_) => f.write_str("--ssim requires planes of at least 8x8 samples"),
        }
    }
}

/// Writes the action that failed, and the error that the system reported.
fn write_failed<W: fmt::Write>(
    f: &mut fmt::Formatter<W>,
    what: &str,
    kind: io::ErrorKind,
) -> fmt::Result {
    let error = SystemError { kind };
    write!(f, "{what}: {error}")
}

/// Writes the reason why a command that writes a file of the kind `written` rejects its target, and what to do instead.
fn write_rejection<W: fmt::Write>(
    f: &mut fmt::Formatter<W>,
    written: FileKind,
    error: TargetError,
) -> fmt::Result {
    let wrote = written.text();
    match error {
        TargetError::Input => {
            f.write_str("the command reads it; name another target, or add --force to replace it")
        }
        TargetError::Stream => write!(
            f,
            "it is a YUV4MPEG2 stream, and the command writes {wrote}; name another target, or add --force to replace it"
        ),
        TargetError::OtherKind(kind) => {
            let (named, advice) = (kind.text(), advice_of(written, kind));
            write!(
                f,
                "the name stands for {named}, and the command writes {wrote}; {advice}, or add --force"
            )
        }
    }
}

/// Returns advice on how to get a file of the kind `named` from a command that writes files of the kind `written`.
fn advice_of(written: FileKind, named: FileKind) -> &'static str {
    match (written, named) {
        (FileKind::Png, _) => "name a .png file",
        (FileKind::Svg, _) => "name an .svg file",
        (_, FileKind::Raw) => "add --raw-output",
        (_, FileKind::Y4m) => "leave out --raw-output",
        (_, FileKind::Container) => "write a .y4m file and let ffmpeg convert it",
        _ => "write a frame with yuv show",
    }
}

/// An error of a stream, displayed as a message.
#[derive(Drop)]
pub struct ShownProblem<'a> {
    /// The error of the stream.
    pub error: &'a StreamError,
}

impl fmt::Display for ShownProblem<'_> {
    fn fmt<W: fmt::Write>(&self, f: &mut fmt::Formatter<W>) -> fmt::Result {
        write_stream_error(f, self.error)
    }
}

/// Returns whether a stream breaks off at a frame that cannot be read. The results of the frames before it are then reported.
pub fn is_broken(error: &StreamError) -> bool
    ensures { IsTrue result ↔ IsBroken error.now }
{
    match (error.place, &error.problem) {
        (Place::Output, _) => false,
        (_, Problem::Stream(_)) => true,
        _ => false,
    }
}

/// Writes an error of a stream, preceded by the number of the frame if it concerns a frame.
fn write_stream_error<W: fmt::Write>(
    f: &mut fmt::Formatter<W>,
    error: &StreamError,
) -> fmt::Result {
    if is_of_a_frame(error) {
        let frame = error.frames.saturating_add(1);
        write!(f, "frame {frame}: ")?;
    }
    write_caused(f, error)
}

/// Returns whether the error concerns a frame: one that was not read, or one that was not written after others.
fn is_of_a_frame(error: &StreamError) -> bool {
    match &error.problem {
        Problem::Stream(Y4mError::Header(_)) => false,
        Problem::Stream(_) => error.place != Place::Output || error.frames > 0,
        _ => false,
    }
}

/// Writes an error of a stream, advice, and the error that the system reported.
fn write_caused<W: fmt::Write>(f: &mut fmt::Formatter<W>, error: &StreamError) -> fmt::Result {
    fmt::Display::fmt(&error.problem, f)?;
    f.write_str(advice_for(&error.problem))?;
    match error.cause {
        Some(kind) => {
            let cause = SystemError { kind };
            write!(f, ": {cause}")
        }
        None => Ok(()),
    }
}

/// Returns the advice that is added to a message, or an empty text if there is none.
fn advice_for(problem: &Problem) -> &'static str {
    match problem {
        Problem::TooManyPixels(_) => "; --max-pixels N allows more",
        Problem::SemiPlanar => "; --raw-output writes them",
        Problem::OtherChroma | Problem::OtherDepth => "; 'yuv copy --format' converts one of them",
        _ => "",
    }
}

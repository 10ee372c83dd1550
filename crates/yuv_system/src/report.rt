//! Writes texts to standard output.
ghost use Rattle.std.specs.Prelude.{◌≡◌, None, string_bytes, IfErr, IsOkAnd, OnErr, OnOk};
ghost use Rattle.std.specs.Io.KnownBytes.{Appends};
ghost use Rattle.v_frame_bytes.specs.Sending.{AppendsBeginning};

use std::alloc::AllocError;
use std::io;
use v_frame_bytes::{SendError, send};
use v_frame_planar::PlanarError;
use v_frame_streams::{Place, Problem, StreamError};
use v_frame_y4m::Y4mError;

/// Writes a text.
///
/// # Errors
///
/// The error of the writer.
pub fn write_text<W: io::Write>(out: &mut W, text: &str) -> Result<(), StreamError>
    ensures ok { OnOk result (Appends (W.contents out.old) (W.contents out.new)
        text.now) }
    ensures beginning { OnErr result (AppendsBeginning (W.contents out.old)
        (W.contents out.new) text.now) }
    ensures place { IfErr result (λ error. error.place ≡ Place.Output) }
{
    match send(out, text.as_bytes()) {
        Ok(()) => Ok(()),
        Err(fault) => Err(not_written(&fault)),
    }
}

/// Returns the error of a text that was not written.
fn not_written(fault: &SendError) -> StreamError
    ensures place { result.place ≡ Place.Output }
{
    let (problem, cause) = match fault {
        SendError::Write(error) => (PlanarError::Write, Some(error.kind())),
        SendError::WriteZero => (PlanarError::WriteZero, None),
    };
    StreamError {
        place: Place::Output,
        frames: 0,
        problem: Problem::Stream(Y4mError::Planar(problem)),
        cause,
    }
}

/// Writes a text, unless its creation ran out of memory.
///
/// # Errors
///
/// The error of the writer, and [`Problem::OutOfMemory`] if `text` is an error.
pub fn write_made<W: io::Write>(
    out: &mut W,
    text: Result<String, AllocError>,
) -> Result<(), StreamError>
    ensures made { OnOk result (IsOkAnd text (λ made. Appends (W.contents out.old)
        (W.contents out.new) (string_bytes made))) }
    ensures place { IfErr result (λ error. error.place ≡ Place.Output) }
{
    match text {
        Ok(text) => {
            let written = write_text(out, text.as_str());
            drop(text);
            written
        }
        Err(_) => Err(no_memory()),
    }
}

/// Returns the error for a report that does not fit into memory.
pub fn no_memory() -> StreamError
    ensures { result ≡ record {
      place = Place.Output;
      frames = 0;
      problem = Problem.OutOfMemory;
      cause = None;
    } }
{
    StreamError::at_start(Place::Output, Problem::OutOfMemory)
}

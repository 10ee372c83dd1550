//! Halves the luma pixels of raw video: `example_halve WIDTH HEIGHT FILE..`, where `-` is standard input.
//!
//! The files must hold 4:2:0 frames of 8 bits without headers. The frames of all files are written to standard output, one file
//! after another.
#![tactic(auto)]

mod error;
mod halve;

use error::HalveError;
use halve::halve_stream;
use std::process::ExitCode;
use std::{env, fs};
use v_frame::chroma::ChromaSubsampling;
use v_frame::frame::{Frame, FrameBuilder};
use v_frame_planar::Counted;

fn main(rt: HostRuntime) -> ExitCode {
    match run(&rt) {
        Ok(()) => ExitCode::SUCCESS,
        Err(error) => {
            let _ = eprintln!(rt; "{error}");
            ExitCode::FAILURE
        }
    }
}

/// Halves the files that the arguments name.
fn run(rt: &HostRuntime) -> Result<(), HalveError> {
    let mut words = env::args(rt)?.skip(1);
    let width = number(words.next())?;
    let height = number(words.next())?;
    let mut frame = frame_of(rt, width, height)?;
    let mut output = Counted::new(rt.stdout());
    for name in words {
        halve_file(rt, name.as_str(), &mut output, &mut frame)?;
    }
    Ok(())
}

/// Returns a frame of this size. Each frame of a file is read into it.
fn frame_of(rt: &HostRuntime, width: usize, height: usize) -> Result<Frame<u8>, HalveError> {
    let builder = FrameBuilder::new(width, height, ChromaSubsampling::Yuv420, 8);
    Ok(builder.build::<u8>(rt.alloc())?)
}

/// Halves one file, or standard input if the name is `-`.
fn halve_file<W: std::io::Write>(
    rt: &HostRuntime,
    name: &str,
    output: &mut Counted<W>,
    frame: &mut Frame<u8>,
) -> Result<(), HalveError> {
    if name == "-" {
        halve_stream(rt.alloc(), rt.stdin(), output, frame)
    } else {
        halve_stream(rt.alloc(), fs::open(rt, name)?, output, frame)
    }
}

/// Returns the number in an argument.
fn number(word: Option<String>) -> Result<usize, HalveError> {
    let word = word.ok_or(HalveError::Usage)?;
    word.parse::<usize>().map_err(|_| HalveError::Usage)
}

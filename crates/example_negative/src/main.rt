//! Writes the negative of a YUV4MPEG2 stream: `example_negative < clip.y4m > negative.y4m`.
#![tactic(auto)]

use example_recipes::negative::negate_frames;
use std::process::ExitCode;
use v_frame_streams::{Container, Place, Sink, Source, StreamError};

fn main(rt: HostRuntime) -> ExitCode {
    match run(&rt) {
        Ok(()) => ExitCode::SUCCESS,
        Err(error) => {
            let _ = eprintln!(rt; "{error}");
            ExitCode::FAILURE
        }
    }
}

/// Filters standard input into standard output.
fn run(rt: &HostRuntime) -> Result<(), StreamError> {
    let alloc = rt.alloc();
    let mut source = Source::y4m(alloc, Place::First, rt.stdin())?;
    let mut sink = Sink::new(Container::Y4m, rt.stdout());
    sink.write_header(alloc, source.header())?;
    let depth = source.header().color.bit_depth();
    if depth == 8 {
        return negate_frames::<u8, _, _>(alloc, &mut source, &mut sink, 255);
    }
    let peak = u16::MAX >> (16 - depth.min(16));
    negate_frames::<u16, _, _>(alloc, &mut source, &mut sink, peak)
}

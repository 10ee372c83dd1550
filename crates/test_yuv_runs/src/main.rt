//! Reads runs of the program `yuv` from standard input, one on each line, and prints the output and the exit status of each.
//!
//! A line has the arguments, with spaces between them. They may be followed by `< FILE`, which is the standard input of the
//! run, by `| N`, for a standard output that is a pipe and breaks after N bytes, and by `= FILE`, the file whose bytes the run
//! should write to standard output instead of text. The files are in the directory of this program, and a file that a run
//! writes is there for the next run.
#![tactic(auto)]

mod cases;
mod pipe;

use cases::run_cases;
use std::process::ExitCode;

fn main(rt: HostRuntime) -> ExitCode {
    match run_cases(&rt, rt.stdin(), rt.stdout()) {
        Ok(()) => ExitCode::SUCCESS,
        Err(error) => {
            let _ = eprintln!(rt; "{error}");
            ExitCode::FAILURE
        }
    }
}

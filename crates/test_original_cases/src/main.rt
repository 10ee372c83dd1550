//! Runs test cases for comparison with the original crate: reads them from standard input, and prints their results.
//!
//! A case builds one or two frames, edits their planes and replays calls on them, or only builds frames. The text consists of
//! lines of tokens that are separated by single spaces. The results of a case are printed after all of it is read. A fault is
//! printed to standard error with the number of its line, and the results of the cases before it are printed.
#![tactic(auto)]

mod answers;
mod calls;
mod cases;
mod edits;
mod fault;
mod fills;
mod input;
mod lcg;
mod lists;
mod print;
mod printer;
mod run;
mod spec;
mod value;

use run::run_cases;
use std::process::ExitCode;

fn main(rt: HostRuntime) -> ExitCode {
    match run_cases(rt.alloc(), &mut rt.stdin(), &mut rt.stdout()) {
        Ok(()) => ExitCode::SUCCESS,
        Err(fault) => {
            let _ = eprintln!(rt; "{fault}");
            ExitCode::FAILURE
        }
    }
}

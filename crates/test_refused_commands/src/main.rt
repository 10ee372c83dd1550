//! Runs `yuv` once, and prints its output and its exit status.
//!
//! The arguments are two numbers and the arguments of `yuv`. The program makes the first number of memory allocations before
//! the run, and the second number after it. With `rt try --fail-alloc N` the Nth allocation fails. `tools/refuse-memory` lets
//! each allocation of a run fail in this way.
#![tactic(auto)]

use std::env;
use yuv_commands::{Streams, run};

fn main(rt: HostRuntime) {
    if show_run(&rt).is_none() {
        let _ = println!(rt; "prepared: refused");
    }
}

/// Shows the run with these arguments, and whether an allocation failed before its end. Returns `None` if an allocation before
/// the run failed. The text on standard error follows the text on standard output.
fn show_run(rt: &HostRuntime) -> Option<()> {
    let mut given = env::args(rt).ok()?;
    let _program = given.next();
    let before = count_of(given.next())?;
    let after = count_of(given.next())?;
    let mut arguments = Vec::new(rt.alloc());
    for argument in given {
        arguments.push(argument).ok()?;
    }
    let mut words = Vec::new(rt.alloc());
    for argument in arguments.iter() {
        words.push(argument.as_str()).ok()?;
    }
    make_requests(rt, before)?;
    let streams = Streams {
        input: rt.stdin(),
        output: rt.stdout(),
        error: rt.stdout(),
        is_terminal: false,
        output_is_terminal: false,
    };
    let status = run(rt, words.as_slice(), streams).code();
    let _ = println!(rt; "\nstatus {status}");
    if after > 0 {
        let is_refused = make_requests(rt, after).is_some();
        let _ = println!(rt; "a request was refused: {is_refused}");
    }
    Some(())
}

/// Parses a number.
fn count_of(word: Option<String>) -> Option<u16> {
    word?.parse::<u16>().ok()
}

/// Makes memory allocations and frees each of them at once. Returns `None` if one fails.
fn make_requests(rt: &HostRuntime, count: u16) -> Option<()> {
    for _request in 0..count {
        let _room = Vec::<u8>::with_capacity(rt.alloc(), 1).ok()?;
    }
    Some(())
}

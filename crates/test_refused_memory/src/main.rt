//! Makes calls on prepared frames and planes, and prints the result and the effect of each.
//!
//! The arguments are two numbers and the names of cases. The program makes the first number of memory allocations before the
//! cases, and the second number after them. With `rt try --fail-alloc N` the Nth allocation fails. `tools/refuse-memory` lets
//! each allocation of each call fail in this way.
#![tactic(auto)]

mod buffers;
mod calls;
mod counts;
mod drops;
mod filled;
mod frames;
mod lines;
mod no_memory;
mod pictures;
mod prepared;
mod replays;
mod show;
mod streams;

use show::show_text;
use std::env;

fn main(rt: HostRuntime) {
    if show_cases(&rt).is_none() {
        show_text(&rt, "prepared: refused");
    }
}

/// Runs the cases that the arguments name, and prints whether an allocation failed before their end. Returns `None` if an
/// allocation before the cases failed.
fn show_cases(rt: &HostRuntime) -> Option<()> {
    let mut words = env::args(rt).ok()?;
    let _program = words.next();
    let before = count_of(words.next())?;
    let after = count_of(words.next())?;
    make_requests(rt, before)?;
    for case in words {
        let name = case.as_str();
        let _ = println!(rt; "case {name}");
        if buffers::seen(rt, name).is_none() {
            show_text(rt, "prepared: refused");
        }
    }
    if after > 0 {
        let is_refused = make_requests(rt, after).is_some();
        let _ = println!(rt; "a request was refused: {is_refused}");
    }
    Some(())
}

/// Parses a number.
fn count_of(word: Option<String>) -> Option<u16> {
    word?.parse::<u16>().ok()
}

/// Makes memory allocations and frees each of them at once. Returns `None` if one fails.
fn make_requests(rt: &HostRuntime, count: u16) -> Option<()> {
    for _request in 0..count {
        let _room = Vec::<u8>::with_capacity(rt.alloc(), 1).ok()?;
    }
    Some(())
}

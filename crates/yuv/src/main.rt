//! The program `yuv`: inspects, compares, copies and converts raw video, and saves frames as pictures.
#![tactic(auto)]

use std::fs::{self, File};
use std::io::ErrorKind;
use std::process::ExitCode;
use std::{env, io};
use yuv_commands::{Status, Streams, refuse, run};
use yuv_words::UsageError;

fn main(rt: HostRuntime) -> ExitCode {
    let status = match run_with_arguments(&rt) {
        Ok(status) => status,
        Err(error) if error.kind() == ErrorKind::InvalidData => {
            refuse(&UsageError::NotUnicode, &mut rt.stderr())
        }
        Err(error) => {
            let _ = eprintln!(rt; "yuv: {error}");
            Status::Failed
        }
    };
    ExitCode::from(status.code())
}

/// Opens the null device three times. A new file gets the lowest free descriptor. After this call, no file that the program opens
/// gets the descriptor of a standard stream that was closed before the program started.
fn take_standard_numbers(rt: &HostRuntime) -> io::Result<[File; 3]> {
    const NULL: &str = "/dev/null";
    Ok([
        fs::open(rt, NULL)?,
        fs::open(rt, NULL)?,
        fs::open(rt, NULL)?,
    ])
}

/// Returns whether a link of Linux to an open file leads to a terminal, which is known from its name.
fn is_terminal(rt: &HostRuntime, link: &str) -> bool {
    match fs::read_link(rt, link) {
        Ok(path) => {
            let name = path.into_string();
            name.as_str().starts_with("/dev/pts/") || name.as_str().starts_with("/dev/tty")
        }
        Err(_) => false,
    }
}

/// Runs the program with its arguments.
fn run_with_arguments(rt: &HostRuntime) -> io::Result<Status> {
    let _held = take_standard_numbers(rt)?;
    let mut given = env::args(rt)?;
    let _program = given.next();
    let mut arguments = Vec::new(rt.alloc());
    for argument in given {
        arguments.push(argument)?;
    }
    let mut words = Vec::new(rt.alloc());
    for argument in arguments.iter() {
        words.push(argument.as_str())?;
    }
    let streams = Streams {
        input: rt.stdin(),
        output: rt.stdout(),
        error: rt.stderr(),
        is_terminal: is_terminal(rt, "/proc/self/fd/2"),
        output_is_terminal: is_terminal(rt, "/proc/self/fd/1"),
    };
    Ok(run(rt, words.as_slice(), streams))
}

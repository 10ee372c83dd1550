//! Runs of `yuv`, one after the other.

use crate::pipe::Pipe;
use std::alloc::Global;
use std::fs;
use std::io::{self, BufWriter, Read, Write};
use std::rt::Files;
use std::time::Clock;
use yuv_commands::{Streams, run};
use yuv_files::SystemFile;

/// A run: its arguments, the files that replace the standard streams, and the number of bytes that standard output accepts.
#[derive(Drop)]
struct Case<'a> {
    words: Vec<&'a str>,
    input: Option<&'a str>,
    room: usize,
    output: Option<&'a str>,
}

/// Makes each run in the input, and prints it.
pub fn run_cases<H: Files + AllocGlobal + Clock, R: Read + Drop, W: Write + Drop>(
    rt: &H,
    mut input: R,
    out: W,
) -> io::Result<()>
where
    H::File: SystemFile,
{
    let mut text = String::new(rt.alloc());
    input.read_to_string(&mut text)?;
    let mut out = BufWriter::new(rt.alloc(), out)?;
    for line in text.as_str().lines() {
        run_case(rt, line, &mut out)?;
    }
    out.flush()
}

/// Parses a line of the input.
fn case_of(alloc: Global, line: &str) -> io::Result<Case<'_>> {
    let mut words = Vec::new(alloc);
    let (line, output) = match line.split_once(" = ") {
        Some((line, file)) => (line, Some(file)),
        None => (line, None),
    };
    let (line, room) = match line.split_once(" | ") {
        Some((line, room)) => (line, room.parse().unwrap_or(0)),
        None => (line, usize::MAX),
    };
    let (line, input) = match line.split_once(" < ") {
        Some((line, file)) => (line, Some(file)),
        None => (line, None),
    };
    for word in line.split(' ') {
        if !word.is_empty() {
            words.push(word)?;
        }
    }
    Ok(Case {
        words,
        input,
        room,
        output,
    })
}

/// Makes a run, and prints it.
fn run_case<H: Files + AllocGlobal + Clock, W: Write>(
    rt: &H,
    line: &str,
    out: &mut W,
) -> io::Result<()>
where
    H::File: SystemFile,
{
    let alloc = rt.alloc();
    let case = case_of(alloc, line)?;
    let given = match case.input {
        Some(file) => fs::read(rt, file)?,
        None => Vec::new(alloc),
    };
    let mut output = Pipe::new(alloc, case.room);
    let mut error = Vec::new(alloc);
    let streams = Streams {
        input: given.as_slice(),
        output: &mut output,
        error: &mut error,
        is_terminal: false,
        output_is_terminal: false,
    };
    let status = run(rt, case.words.as_slice(), streams).code();
    writeln!(out, "$ yuv {line}")?;
    match case.output {
        Some(file) => print_same(rt, output.taken(), file, out)?,
        None => out.write_all(output.taken())?,
    }
    out.write_all(error.as_slice())?;
    writeln!(out, "status {status}")
}

/// Prints whether a run wrote the bytes of a file.
fn print_same<H: Files + AllocGlobal + Clock, W: Write>(
    rt: &H,
    written: &[u8],
    file: &str,
    out: &mut W,
) -> io::Result<()> {
    let wanted = fs::read(rt, file)?;
    let count = written.len();
    if written == wanted.as_slice() {
        writeln!(out, "{count} bytes, those of {file}")
    } else {
        writeln!(out, "{count} bytes, and not those of {file}")
    }
}

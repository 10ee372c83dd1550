//! Runs all cases of a reader, and writes the results to a writer.

use crate::cases::answer_cases;
use crate::fault::CaseFault;
use crate::input::Input;
use crate::printer::Printer;
use std::alloc::Global;
use std::io::{Read, Write};

/// Reads cases to the end of the input, and writes the results of each.
///
/// # Errors
///
/// Returns the first fault. The results of the cases before it are written, unless writing fails.
pub fn run_cases<R: Read, W: Write>(
    alloc: Global,
    reader: &mut R,
    writer: &mut W,
) -> Result<(), CaseFault> {
    let mut text = Vec::new(alloc);
    if let Err(error) = reader.read_to_end(&mut text) {
        return Err(CaseFault::of_io(&error, CaseFault::Read));
    }
    let mut input = Input::new(alloc, text.as_slice());
    let mut answers = Printer::new(alloc);
    answer_cases(&mut input, &mut answers);
    let written = write_output(writer, answers.as_bytes());
    match input.into_fault() {
        Some(fault) => Err(fault),
        None => written,
    }
}

/// Writes all bytes of the output.
fn write_output<W: Write>(writer: &mut W, text: &[u8]) -> Result<(), CaseFault> {
    let written = match writer.write_all(text) {
        Ok(()) => writer.flush(),
        Err(error) => Err(error),
    };
    match written {
        Ok(()) => Ok(()),
        Err(error) => Err(CaseFault::of_io(&error, CaseFault::Write)),
    }
}

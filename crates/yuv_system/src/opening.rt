//! Opens files by name.
ghost use Rattle.std.specs.Prelude.{◌≡◌, ◌≢◌, codes, IfOk, None, OnOk};
ghost use Rattle.yuv_system.specs.InputFiles.{bytes_of_input, IsInputOf, IsReadOn};

use crate::fault::Fault;
use crate::input_file::{InputFile, Reader};
use std::fs;
use std::io::Read;
use std::rt::Files;
use v_frame_streams::Place;
use yuv_files::{STANDARD_OUTPUT, is_read};

/// Opens a file for reading, or takes standard input for the name `-`. The file that standard output writes to is rejected: it
/// would grow while it is read.
///
/// # Errors
///
/// [`Fault::ReadAndWritten`] if standard output writes to the file, [`Fault::InputTwice`] if standard input was already taken,
/// and [`Fault::Open`] if the file can't be opened.
pub fn open_file<H: Files<File = F>, F: Read, I: Read>(
    rt: &H,
    name: &str,
    place: Place,
    standard: &mut Option<I>,
) -> Result<InputFile<F, I>, Fault>
    ensures unread { IfOk result IsReadOn }
    ensures standard { IfOk result (λ file. IsInputOf I.remaining name.now standard.old
        (bytes_of_input F.remaining I.remaining file)) }
    ensures taken { name.now ≡ codes "-" → OnOk result (standard.new ≡ None) }
    ensures kept { name.now ≢ codes "-" → standard.new ≡ standard.old }
{
    if is_read(rt, name, STANDARD_OUTPUT) {
        return Err(Fault::ReadAndWritten(place));
    }
    let reader = if name == "-" {
        match standard.take() {
            Some(input) => Reader::Standard(input),
            None => return Err(Fault::InputTwice(place)),
        }
    } else {
        match fs::open(rt, name) {
            Ok(file) => Reader::File(file),
            Err(error) => return Err(Fault::Open(place, error.kind())),
        }
    };
    Ok(InputFile::new(place, reader))
}

//! The output of a command: a file that replaces its target, or standard output.
ghost use Rattle.std.specs.Prelude.{◌≡◌, ◌↔◌, Ok, IfOk, IsTrue};
ghost use Rattle.yuv_system.specs.Outputs.{IsStandardOutput};

use crate::fault::Fault;
use std::fs::OpenFile;
use std::io::{self, Write};
use std::rt::Files;
use v_frame_streams::Place;
use yuv_files::{
    FileKind, SystemFile, TargetFile, Unkept, check_target, is_any_read, target_facts,
    write_message,
};

/// A file that a command writes.
#[derive(Clone, Copy)]
pub struct Target<'a> {
    /// The name of the file. The name `-` is standard output.
    pub name: &'a str,
    /// The kind of file that the command writes.
    pub written: FileKind,
    /// The names of the files that the command reads.
    pub inputs: &'a [&'a str],
    /// Whether `--force` is given: the target is then written even if it would otherwise be rejected.
    pub is_forced: bool,
}

/// Tests whether a command may write a target, before any file is read. Standard output takes files of all kinds.
///
/// # Errors
///
/// [`Fault::Target`] if [`check_target`] rejects the target, and [`Fault::Create`] if its name has too many symbolic links or
/// there is not enough memory.
pub fn test_target<H: Files + AllocGlobal>(rt: &H, target: &Target<'_>) -> Result<(), Fault> {
    if is_standard_output(target.name) {
        return Ok(());
    }
    let facts = match target_facts(rt, target.name, target.inputs) {
        Ok(facts) => facts,
        Err(error) => return Err(Fault::Create(error.kind())),
    };
    match check_target(target.written, &facts, target.is_forced) {
        Ok(()) => Ok(()),
        Err(error) => Err(Fault::Target(target.written, error)),
    }
}

/// A file or standard output, for writing.
#[derive(Drop)]
pub enum Output<'a, F, O> {
    /// A file that replaces its target.
    File(TargetFile<F>),
    /// Standard output.
    Standard(&'a mut O),
}

impl<F: Write + OpenFile, O: Write> Write for Output<'_, F, O> {
    ghost use Rattle.yuv_system.specs.Outputs.{bytes_of_output};

    ghost contents = { bytes_of_output F.contents O.contents };

    fn write(&mut self, buf: &[u8]) -> io::Result<usize> {
        match self {
            Output::File(to) => {
                to.begin()?;
                to.file.write(buf)
            }
            Output::Standard(out) => out.write(buf),
        }
    }

    fn flush(&mut self) -> io::Result<()> {
        match self {
            Output::File(to) => to.file.flush(),
            Output::Standard(out) => out.flush(),
        }
    }
}

/// Returns whether a name is `-` or one of the system's names for standard output. A command never opens standard output by name,
/// because other programs may be writing to the same file.
pub fn is_standard_output(name: &str) -> bool
    ensures { IsTrue result ↔ IsStandardOutput name.now }
{
    matches!(name, "-" | "/dev/stdout" | "/dev/fd/1" | "/proc/self/fd/1")
}

impl<'a, F: OpenFile + SystemFile + Drop, O> Output<'a, F, O> {
    /// Opens a target that [`test_target`] accepted, or takes standard output if the target has one of its names. A target that
    /// can't be replaced, but only overwritten, must not be one of the input files. A message warns if the owner or the group of
    /// the target is not kept, or if the target would be lost if the command failed.
    ///
    /// # Errors
    ///
    /// [`Fault::Create`] if no file can be created, and [`Fault::ReadAndWritten`] if an input file would be overwritten.
    pub fn open<H: Files<File = F> + AllocGlobal, E: Write>(
        rt: &H,
        target: &Target<'_>,
        standard: &'a mut O,
        messages: &mut E,
    ) -> Result<Self, Fault> {
        let (name, inputs) = (target.name, target.inputs);
        if is_standard_output(name) {
            return Ok(Output::Standard(standard));
        }
        let file = match TargetFile::create(rt, name, inputs) {
            Ok(file) => file,
            Err(error) => return Err(Fault::Create(error.kind())),
        };
        if file.is_written_in_place() && is_any_read(rt, inputs, name) {
            return Err(Fault::ReadAndWritten(Place::Output));
        }
        if let Some(loss) = file.loss() {
            write_message(messages, Some(name), &loss);
        }
        Ok(Output::File(file))
    }

    /// Replaces the target with the file if `done` is a success, and removes the file otherwise.
    ///
    /// # Errors
    ///
    /// The error of `done`; [`Fault::Replace`] if the target can't be replaced, and [`Fault::Rewrite`] if it can't be
    /// overwritten.
    pub fn settle<H: Files<File = F>, T: Drop>(
        self,
        rt: &H,
        done: Result<T, Fault>,
    ) -> Result<T, Fault>
        ensures { IfOk result (λ value. done ≡ Ok value) }
    {
        let Output::File(to) = self else {
            return done;
        };
        match done {
            Ok(value) => match to.keep(rt) {
                Ok(()) => Ok(value),
                Err(Unkept::Replace(cause)) => Err(Fault::Replace(cause)),
                Err(Unkept::Rewrite(cause)) => Err(Fault::Rewrite(cause)),
            },
            Err(fault) => {
                to.discard(rt);
                Err(fault)
            }
        }
    }
}

//! Files that are opened by name, and standard input.
ghost use Rattle.std.specs.Prelude.{◌≡◌, ◌≤◌, ◌==◌, ◌↔◌, IfOk, IsTrue};
ghost use Rattle.v_frame_y4m.specs.Header.{signature};

use std::fs::OpenFile;
use std::io::{self, Read};
use v_frame_planar::{Counted, read_until_full};
use v_frame_streams::{Place, Problem, StreamError};
use v_frame_y4m::Y4mError;

/// The first bytes of a YUV4MPEG2 stream.
const MAGIC: &[u8] = b"YUV4MPEG2";

/// The number of bytes at the beginning of a file that are inspected before they are read.
const FIRST: usize = 9;

/// A file or standard input, for reading.
#[derive(Drop)]
pub(crate) enum Reader<F, I> {
    File(F),
    Standard(I),
}

impl<F: Read, I: Read> Read for Reader<F, I> {
    ghost use Rattle.yuv_system.specs.InputFiles.{bytes_of_reader};

    ghost remaining = { bytes_of_reader F.remaining I.remaining };

    fn read(&mut self, buf: &mut [u8]) -> io::Result<usize> {
        match self {
            Reader::File(file) => file.read(buf),
            Reader::Standard(input) => input.read(buf),
        }
    }
}

/// A file or standard input for reading, whose first bytes can be inspected before they are read.
#[derive(Drop)]
pub struct InputFile<F, I> {
    /// The place of the file among the files of the command.
    pub(crate) place: Place,
    reader: Counted<Reader<F, I>>,
    first: [u8; FIRST],
    /// `known` is the number of bytes of `first` that were read from the file, and `given` is the number of those that were
    /// passed on.
    known: usize,
    given: usize,
    ghost room: { known ≤ 9 },
    ghost order: { given ≤ known },
}

impl<F: Read, I: Read> Read for InputFile<F, I> {
    ghost use Rattle.yuv_system.specs.InputFiles.{bytes_of_input};

    ghost remaining = { bytes_of_input F.remaining I.remaining };

    fn read(&mut self, buf: &mut [u8]) -> io::Result<usize> {
        if self.given == self.known {
            return self.reader.read(buf);
        }
        let count = buf.len().min(self.known - self.given);
        buf[..count].copy_from_slice(&self.first[self.given..self.given + count]);
        self.given += count;
        Ok(count)
    }
}

impl<F: Read, I: Read> InputFile<F, I> {
    ghost use Rattle.std.specs.Prelude.{IfSome};
    ghost use Rattle.std.specs.Io.KnownBytes.{Keeps};
    ghost use Rattle.yuv_system.specs.InputFiles.{bytes_of_input, bytes_of_reader, BeginsAsAStream, IsReadOn};

    /// Returns the file of a reader from which nothing was read.
    pub(crate) fn new(place: Place, reader: Reader<F, I>) -> Self
        ensures unread { IsReadOn result }
        ensures place { result.place ≡ place }
        ensures bytes { bytes_of_input F.remaining I.remaining result
            ≡ bytes_of_reader F.remaining I.remaining reader }
    {
        InputFile {
            place,
            reader: Counted::new(reader),
            first: [0; FIRST],
            known: 0,
            given: 0,
        }
    }

    /// Inspects the first bytes, and returns whether a YUV4MPEG2 stream begins with them. A later read still returns them.
    ///
    /// # Errors
    ///
    /// The error of the reader.
    #[tactic(auto, using(crate::proofs::LookedAt::begins_as, crate::proofs::LookedAt::looked_at))]
    pub(crate) fn begins_as_a_stream(&mut self) -> Result<bool, StreamError>
        requires { IsReadOn self.old }
        ensures place { self.new.place ≡ self.old.place }
        ensures unread { IfOk result (λ _. Keeps (bytes_of_input F.remaining I.remaining self.old)
            (bytes_of_input F.remaining I.remaining self.new)) }
        ensures found { IfOk result (λ is_a_stream.
            IfSome (bytes_of_input F.remaining I.remaining self.old) (λ bytes.
            IsTrue is_a_stream ↔ BeginsAsAStream bytes)) }
    {
        let mut first = [0; FIRST];
        match read_until_full(&mut self.reader, &mut first) {
            Ok(found) => {
                self.first = first;
                self.known = found;
                self.given = 0;
                Ok(is_magic(&first[..found]))
            }
            Err(error) => Err(StreamError {
                place: self.place,
                frames: 0,
                problem: Problem::Stream(Y4mError::Planar(error)),
                cause: self.reader.last_failure(),
            }),
        }
    }
}

impl<F, I> InputFile<F, I> {
    /// Returns whether the file has no bytes, after its first bytes were inspected.
    pub(crate) fn has_no_bytes(&self) -> bool
        ensures { result ≡ (self.now.known == 0) }
    {
        self.known == 0
    }
}

/// Returns whether these are the bytes with which a YUV4MPEG2 stream begins.
fn is_magic(bytes: &[u8]) -> bool
    ensures { IsTrue result ↔ bytes.now ≡ signature }
{
    bytes == MAGIC
}

impl<F: OpenFile, I> InputFile<F, I> {
    /// Returns the length of the file in bytes, or `None` if it is not a regular file.
    pub fn len(&self) -> Option<u64> {
        match self.reader.get_ref() {
            Reader::File(file) => match file.metadata() {
                Ok(found) if found.is_file() => Some(found.len()),
                _ => None,
            },
            Reader::Standard(_) => None,
        }
    }
}

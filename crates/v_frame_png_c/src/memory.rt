//! A writer that collects a file in memory.
ghost use Rattle.std.specs.Prelude.{◌≡◌, []};

use std::alloc::Global;
use std::io;

/// The bytes of the file so far. A write fails if there is not enough memory.
#[derive(Drop)]
pub struct Memory {
    bytes: Vec<u8>,
}

impl Memory {
    /// Returns an empty file.
    pub fn new(alloc: Global) -> Self
        ensures { result.bytes.items ≡ [] }
    {
        Memory {
            bytes: Vec::new(alloc),
        }
    }

    /// Returns the bytes.
    pub fn into_bytes(self) -> Vec<u8>
        ensures { result ≡ self.bytes }
    {
        self.bytes
    }
}

impl io::Write for Memory {
    ghost use Rattle.std.specs.Prelude.{Some};

    ghost contents = { λ memory. Some memory.bytes.items };

    #[tactic(auto, using(crate::proofs::WholeFile::all_taken))]
    fn write(&mut self, buf: &[u8]) -> io::Result<usize> {
        self.bytes.extend_from_slice(buf)?;
        Ok(buf.len())
    }

    fn flush(&mut self) -> io::Result<()> {
        Ok(())
    }
}

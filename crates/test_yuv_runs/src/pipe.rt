//! A standard output whose reader closes the pipe.

use std::alloc::Global;
use std::io::{self, ErrorKind, Write};

/// A pipe that accepts a number of bytes and then breaks.
#[derive(Drop)]
pub struct Pipe {
    taken: Vec<u8>,
    room: usize,
}

impl Pipe {
    /// Returns a pipe that accepts `room` bytes.
    pub fn new(alloc: Global, room: usize) -> Self {
        Pipe {
            taken: Vec::new(alloc),
            room,
        }
    }

    /// Returns the bytes that were accepted.
    pub fn taken(&self) -> &[u8] {
        self.taken.as_slice()
    }
}

impl Write for Pipe {
    fn write(&mut self, buf: &[u8]) -> io::Result<usize> {
        if self.room == 0 {
            return Err(io::Error::from(ErrorKind::BrokenPipe));
        }
        let offered = buf.len().min(self.room);
        let count = self.taken.write(&buf[..offered])?;
        self.room = self.room.saturating_sub(count);
        Ok(count)
    }

    fn flush(&mut self) -> io::Result<()> {
        Ok(())
    }
}

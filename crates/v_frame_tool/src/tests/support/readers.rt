//! Readers that yield few bytes, and that fail.

use std::io::{self, ErrorKind, Read};

/// A reader that yields a few bytes of a source at each call, and fails after a number of calls.
#[derive(Drop)]
pub struct Pieces<'a> {
    /// The bytes of the source that are not read yet.
    pub left: &'a [u8],
    /// The largest number of bytes that a call yields.
    pub most: usize,
    /// The number of remaining calls that succeed.
    pub calls: usize,
    /// The number of calls of `read`.
    pub reads: usize,
}

/// Returns a reader of the bytes `left` that was not called. A call yields at most `most` bytes, and only `calls` calls
/// succeed.
pub fn pieces_of(left: &[u8], most: usize, calls: usize) -> Pieces<'_> {
    Pieces {
        left,
        most,
        calls,
        reads: 0,
    }
}

impl Read for Pieces<'_> {
    fn read(&mut self, buf: &mut [u8]) -> io::Result<usize> {
        self.reads = self.reads.saturating_add(1);
        if self.calls == 0 {
            return Err(io::Error::from(ErrorKind::Interrupted));
        }
        self.calls -= 1;
        let count = self.most.min(buf.len()).min(self.left.len());
        let (first, rest) = self.left.split_at(count);
        buf[..count].copy_from_slice(first);
        self.left = rest;
        Ok(count)
    }
}

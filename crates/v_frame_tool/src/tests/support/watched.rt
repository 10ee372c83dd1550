//! A writer that takes few bytes, records its calls, and fails or takes no bytes from some call on.

use crate::counted::Counted;
use crate::tests::support::checks::{Test, same_at};
use std::alloc::Global;
use std::io::{self, ErrorKind, Write};

/// The action of a writer at a call that takes no bytes.
#[derive(Clone, Copy)]
pub enum Habit {
    /// The writer returns that it took no bytes.
    TakesNone,
    /// The writer fails.
    Fails,
}

/// A writer that takes a few bytes at each call, counts its calls, and then changes to its habit.
#[derive(Drop)]
pub struct WatchedWriter {
    /// The bytes that the writer took.
    pub taken: Vec<u8>,
    /// The largest number of bytes that a call takes.
    pub most: usize,
    /// The number of remaining calls that take bytes.
    pub calls: usize,
    /// The action of the calls after these.
    pub then: Habit,
    /// The number of calls of `write`.
    pub writes: usize,
    /// The number of calls of `write` without any bytes.
    pub empty_writes: usize,
    /// The number of calls of `flush`.
    pub flushes: usize,
}

/// Returns a writer that was not called. It takes at most `most` bytes at each of `calls` calls, and then does `then`.
pub fn watched_writer(
    alloc: Global,
    most: usize,
    calls: usize,
    then: Habit,
) -> Counted<WatchedWriter> {
    Counted::new(WatchedWriter {
        taken: Vec::new(alloc),
        most,
        calls,
        then,
        writes: 0,
        empty_writes: 0,
        flushes: 0,
    })
}

impl Write for WatchedWriter {
    fn write(&mut self, buf: &[u8]) -> io::Result<usize> {
        self.writes = self.writes.saturating_add(1);
        if buf.is_empty() {
            self.empty_writes = self.empty_writes.saturating_add(1);
        }
        if self.calls == 0 {
            return match self.then {
                Habit::TakesNone => Ok(0),
                Habit::Fails => Err(io::Error::from(ErrorKind::Interrupted)),
            };
        }
        self.calls -= 1;
        let count = self.most.min(buf.len());
        self.taken.write(&buf[..count])
    }

    fn flush(&mut self) -> io::Result<()> {
        self.flushes = self.flushes.saturating_add(1);
        Ok(())
    }
}

/// Fails the test unless a writer took these bytes and failed this number of times, and reports the number of the case.
pub fn must_have_taken(
    rt: &impl Test,
    out: &Counted<WatchedWriter>,
    (failures, bytes): (u64, &[u8]),
    case: usize,
) {
    let taken = out.get_ref().taken.as_slice();
    same_at(rt, (out.failures(), taken), (failures, bytes), case);
}

/// Returns the numbers of calls of `write`, of calls of `write` without any bytes, and of calls of `flush`.
pub fn calls_of(out: &Counted<WatchedWriter>) -> [usize; 3] {
    let writer = out.get_ref();
    [writer.writes, writer.empty_writes, writer.flushes]
}

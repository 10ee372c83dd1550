//! Tests of the number of calls that a counted reader or writer makes to its inner reader or writer.

use crate::counted::Counted;
use crate::planar::write_frame;
use crate::tests::support::checks::{Test, same, same_at};
use crate::tests::support::planar::six_bytes;
use crate::tests::support::readers::{Pieces, pieces_of};
use crate::tests::support::texts::must_show;
use crate::tests::support::watched::Habit::Fails;
use crate::tests::support::watched::{calls_of, must_have_taken, watched_writer};

/// Bytes to write, the number of bytes that the call takes, and the numbers of `write` calls, of empty ones and of failures
/// after it.
type Call = (&'static [u8], Option<usize>, usize, usize, u64);

/// Calls of a writer that takes two bytes each time, and fails at the third call.
static CALLS: [Call; 3] = [
    (&[1, 2, 3], Some(2), 1, 0, 0),
    (&[], Some(0), 2, 1, 0),
    (&[3], None, 3, 1, 1),
];

#[test]
fn a_write_is_one_call_and_no_flush(rt: HostRuntime) {
    let rt = &rt;
    let mut out = watched_writer(rt.alloc(), 2, 2, Fails);
    for (bytes, taken, writes, empty_writes, failures) in &CALLS {
        let count = out.write(*bytes).ok();
        let told = (count, calls_of(&out));
        same_at(rt, told, (*taken, [*writes, *empty_writes, 0]), *writes);
        must_have_taken(rt, &out, (*failures, &[1, 2]), *writes);
    }
    same(rt, out.write_all(&[]), Ok(()));
    same(rt, calls_of(&out), [3, 1, 0]);
    must_have_taken(rt, &out, (1, &[1, 2]), 4);
}

/// The largest number of bytes per call, the number of calls before one fails, the expected result of writing the bytes 1 to 5,
/// the number of calls, the number of failures, and the bytes that the writer takes.
type AllWritten = (usize, usize, &'static str, usize, u64, &'static [u8]);

/// Writers that take all five bytes, and writers that do not.
static ALL: [AllWritten; 5] = [
    (2, 64, "Ok(())", 3, 0, &[1, 2, 3, 4, 5]),
    (9, 64, "Ok(())", 1, 0, &[1, 2, 3, 4, 5]),
    (2, 0, "Err(Failed)", 1, 1, &[]),
    (2, 2, "Err(Failed)", 3, 1, &[1, 2, 3, 4]),
    (0, 64, "Err(TookNothing)", 1, 0, &[]),
];

#[test]
fn writing_all_calls_until_all_is_taken_or_a_call_fails(rt: HostRuntime) {
    let rt = &rt;
    for (number, (most, takes, answer, calls, failures, taken)) in ALL.iter().enumerate() {
        let mut out = watched_writer(rt.alloc(), *most, *takes, Fails);
        let written = out.write_all(&[1, 2, 3, 4, 5]);
        must_show(rt, &written, *answer);
        same_at(rt, calls_of(&out), [*calls, 0, 0], number);
        must_have_taken(rt, &out, (*failures, *taken), number);
    }
}

#[test]
fn a_frame_is_written_without_a_flush_and_without_an_empty_write(rt: HostRuntime) {
    let rt = &rt;
    let frame = six_bytes(rt, [1, 2, 3, 4, 5, 6]);
    for most in [1, 4, 6] {
        let mut out = watched_writer(rt.alloc(), most, 64, Fails);
        same_at(rt, write_frame(&mut out, &frame), Ok(()), most);
        let [_writes, empty_writes, flushes] = calls_of(&out);
        same_at(rt, [empty_writes, flushes], [0; 2], most);
        must_have_taken(rt, &out, (0, &[1, 2, 3, 4, 5, 6]), most);
    }
    drop(frame);
}

/// Fails the test unless a read returns the expected number of bytes, is the expected number of calls, and leaves the expected
/// bytes in the buffer.
fn check_read(
    rt: &impl Test,
    reader: &mut Counted<Pieces<'_>>,
    buf: &mut [u8],
    (count, reads, left): (Option<usize>, usize, &[u8]),
) {
    let found = reader.read(buf).ok();
    same_at(rt, found, count, reads);
    same(rt, reader.get_ref().reads, reads);
    same_at(rt, &*buf, left, reads);
}

#[test]
fn a_read_is_one_call(rt: HostRuntime) {
    let rt = &rt;
    let mut reader = Counted::new(pieces_of(&[1, 2, 3, 4], 3, 2));
    let mut buf = [0; 4];
    check_read(rt, &mut reader, &mut buf, (Some(3), 1, &[1, 2, 3, 0]));
    check_read(rt, &mut reader, &mut [], (Some(0), 2, &[]));
    check_read(rt, &mut reader, &mut buf, (None, 3, &[1, 2, 3, 0]));
    same(rt, (reader.failures(), reader.inner().left.len()), (1, 1));
}

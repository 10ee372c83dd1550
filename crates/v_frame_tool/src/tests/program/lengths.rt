//! Tests of sources of every small length, and of the calls that the program makes to its writer.

use crate::fault::ToolFault;
use crate::run::run;
use crate::tests::support::checks::{Test, same_at};
use crate::tests::support::watched::Habit::Fails;
use crate::tests::support::watched::{calls_of, must_have_taken, watched_writer};
use v_frame::plane::CopyError;

/// The pixels 1 to 40.
static FORTY: [u8; 40] = [
    1, 2, 3, 4, 5, 6, 7, 8, 9, 10, 11, 12, 13, 14, 15, 16, 17, 18, 19, 20, 21, 22, 23, 24, 25, 26,
    27, 28, 29, 30, 31, 32, 33, 34, 35, 36, 37, 38, 39, 40,
];

/// Fails the test unless a source of `length` pixels gives the expected result and output. The writer takes at most `most`
/// bytes per call. Eight pixels are printed. Any other number is rejected, and the writer is not called.
fn check_length(rt: &impl Test, length: usize, most: usize) {
    let mut out = watched_writer(rt.alloc(), most, 64, Fails);
    let answer = run(rt.alloc(), &mut out, FORTY.get(..length).unwrap_or(&[]));
    let [writes, empty_writes, flushes] = calls_of(&out);
    same_at(rt, [empty_writes, flushes], [0; 2], length);
    same_at(rt, writes > 0, length == 8, length);
    let (wanted, text): (_, &[u8]) = if length == 8 {
        (Ok(()), b"plane 0: 4 x 2\n1 2 3 4\n5 6 7 8\n")
    } else {
        let (expected, found) = (8, length);
        (
            Err(ToolFault::Copy(CopyError::DataLength { expected, found })),
            b"",
        )
    };
    same_at(rt, answer, wanted, length);
    must_have_taken(rt, &out, (0, text), most);
}

#[test]
fn eight_pixels_are_printed_and_no_other_number(rt: HostRuntime) {
    for most in [1, 2, 15, 30, 31, 32, 100] {
        check_length(&rt, 8, most);
    }
    for length in 0..=40 {
        check_length(&rt, length, 100);
    }
}

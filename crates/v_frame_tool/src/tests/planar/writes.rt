//! Tests of frames that are written: in one call, in pieces, and incompletely.

use crate::counted::Counted;
use crate::planar::write_frame;
use crate::tests::support::checks::{Test, same};
use crate::tests::support::frames::{built, padded};
use crate::tests::support::planar::{six_bytes, without_u};
use crate::tests::support::texts::must_show;
use crate::tests::support::watched::Habit::{self, Fails, TakesNone};
use crate::tests::support::watched::{must_have_taken, watched_writer};
use v_frame::chroma::ChromaSubsampling::Monochrome;
use v_frame::frame::Frame;
use v_frame::pixel::Pixel;

/// The number of calls that each take one byte, the habit of the writer afterwards, the expected result, the number of
/// failures, and the bytes that the writer takes.
type Written = (usize, Habit, &'static str, u64, &'static [u8]);

/// Fails the test unless a frame is written to memory as `bytes`, and unless each slow writer gives the expected result, takes
/// the expected bytes and fails the expected number of times.
fn check_writes<T: Pixel>(rt: &impl Test, frame: Frame<T>, bytes: &[u8], cases: &[Written]) {
    let mut out = Counted::new(Vec::new(rt.alloc()));
    same(rt, write_frame(&mut out, &frame), Ok(()));
    same(rt, out.get_ref().as_slice(), bytes);
    for (calls, habit, answer, failures, taken) in cases {
        let mut out = watched_writer(rt.alloc(), 1, *calls, *habit);
        let written = write_frame(&mut out, &frame);
        must_show(rt, &written, *answer);
        must_have_taken(rt, &out, (*failures, *taken), *calls);
    }
    drop(frame);
}

/// Slow writers of two two-byte pixels.
static WORDS: [Written; 3] = [
    (9, Fails, "Ok(())", 0, &[2, 1, 4, 3]),
    (0, Fails, "Err(Write)", 1, &[]),
    (3, Fails, "Err(Write)", 1, &[2, 1, 4]),
];

/// Writers of six bytes that take no bytes at the first call or at the fourth call.
static SIX: [Written; 2] = [
    (0, TakesNone, "Err(WriteZero)", 0, &[]),
    (3, TakesNone, "Err(WriteZero)", 0, &[1, 2, 3]),
];

#[test]
fn words_and_bytes_and_replaced_planes_are_written_whole_or_to_a_beginning(rt: HostRuntime) {
    let rt = &rt;
    let mut words = built::<u16>(rt, padded((2, 1), Monochrome, 10, [0; 4]));
    same(rt, words.y_plane.copy_from_slice(&[258, 772]), Ok(()));
    check_writes(rt, words, &[2, 1, 4, 3], &WORDS);
    let six = six_bytes(rt, [1, 2, 3, 4, 5, 6]);
    check_writes(rt, six, &[1, 2, 3, 4, 5, 6], &SIX);
    let replaced = without_u(rt, [1, 2, 3, 4, 5, 6], [9, 8, 7, 6, 5, 4]);
    check_writes(rt, replaced, &[1, 2, 3, 4, 9, 8, 7, 6, 5, 4], &[]);
}

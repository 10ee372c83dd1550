//! Tests of the program with writers into memory, writers that fail, and writers that take few bytes.

use crate::run::run;
use crate::tests::support::texts::must_show;
use crate::tests::support::watched::Habit::{self, Fails, TakesNone};
use crate::tests::support::watched::{must_have_taken, watched_writer};

/// The pixels, the number of calls that each take one byte, the habit of the writer afterwards, the expected result of the
/// program, the number of failures, and the printed bytes.
type Run = (
    &'static [u8],
    usize,
    Habit,
    &'static str,
    u64,
    &'static [u8],
);

/// Runs with eight pixels and with other numbers of pixels to a writer that takes all bytes, and runs to writers that fail or
/// take no bytes at the first call or at a later call.
static RUNS: [Run; 10] = [
    (
        &[1, 2, 3, 4, 5, 6, 7, 8],
        64,
        Fails,
        "Ok(())",
        0,
        b"plane 0: 4 x 2\n1 2 3 4\n5 6 7 8\n",
    ),
    (
        &[255; 8],
        64,
        Fails,
        "Ok(())",
        0,
        b"plane 0: 4 x 2\n255 255 255 255\n255 255 255 255\n",
    ),
    (
        &[1, 2, 3, 4, 5, 6, 7],
        64,
        Fails,
        "Err(Copy(DataLength { expected: 8, found: 7 }))",
        0,
        b"",
    ),
    (
        &[1, 2, 3, 4, 5, 6, 7, 8, 9],
        64,
        Fails,
        "Err(Copy(DataLength { expected: 8, found: 9 }))",
        0,
        b"",
    ),
    (
        &[],
        64,
        Fails,
        "Err(Copy(DataLength { expected: 8, found: 0 }))",
        0,
        b"",
    ),
    (&[1, 2, 3, 4, 5, 6, 7, 8], 0, Fails, "Err(Output)", 1, b""),
    (
        &[1, 2, 3, 4, 5, 6, 7, 8],
        0,
        TakesNone,
        "Err(WriteZero)",
        0,
        b"",
    ),
    (&[1, 2, 3, 4, 5, 6, 7, 8], 1, Fails, "Err(Output)", 1, b"p"),
    (
        &[1, 2, 3, 4, 5, 6, 7, 8],
        30,
        Fails,
        "Err(Output)",
        1,
        b"plane 0: 4 x 2\n1 2 3 4\n5 6 7 8",
    ),
    (
        &[1, 2, 3, 4, 5, 6, 7, 8],
        16,
        TakesNone,
        "Err(WriteZero)",
        0,
        b"plane 0: 4 x 2\n1",
    ),
];

#[test]
fn rows_are_printed_and_a_hindered_write_is_answered_and_not_tried_again(rt: HostRuntime) {
    let rt = &rt;
    for (number, case) in RUNS.iter().enumerate() {
        let (pixels, calls, habit, answer, failures, printed) = *case;
        let mut out = watched_writer(rt.alloc(), 1, calls, habit);
        let ran = run(rt.alloc(), &mut out, pixels);
        must_show(rt, &ran, answer);
        must_have_taken(rt, &out, (failures, printed), number);
    }
}

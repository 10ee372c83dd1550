//! Tests of frames that are read: in one call, in pieces, and incompletely.

use crate::counted::Counted;
use crate::planar::read_frame;
use crate::tests::support::buffers::{IN_200, must_show_rows};
use crate::tests::support::checks::{Test, same, same_at};
use crate::tests::support::frames::{BORDERED, built, luma, must_have_plane, padded, with_buffer};
use crate::tests::support::planar::{six_bytes, without_u};
use crate::tests::support::readers::pieces_of;
use crate::tests::support::texts::must_show;
use v_frame::chroma::ChromaSubsampling::Yuv420;
use v_frame::frame::Frame;
use v_frame::pixel::Pixel;

/// The expected results of reading six bytes at a time from a stream of seven bytes.
static ANSWERS: [&str; 3] = [
    "Ok(true)",
    "Err(Truncated { expected: 6, found: 1 })",
    "Ok(false)",
];

#[test]
fn a_frame_a_rest_and_the_end(rt: HostRuntime) {
    let rt = &rt;
    let mut frame = six_bytes(rt, [0; 6]);
    let mut reader = Counted::new([1, 2, 3, 4, 5, 6, 7].as_slice());
    for answer in &ANSWERS {
        let read = read_frame(rt.alloc(), &mut reader, &mut frame);
        must_show(rt, &read, *answer);
        must_have_plane(rt, &frame, 0, Some(&[1, 2, 3, 4]));
        must_have_plane(rt, &frame, 1, Some(&[5]));
        must_have_plane(rt, &frame, 2, Some(&[6]));
        same(rt, reader.failures(), 0);
    }
    drop(frame);
}

/// Some of the bytes 1 to 7, the number of bytes per call, the number of calls before the reader fails, the expected result of
/// reading six bytes, the number of failures, and the number of bytes that are not read.
type Piecewise = (&'static [u8], usize, usize, &'static str, u64, usize);

/// Reads in pieces, some of which end too early.
static PIECES: [Piecewise; 8] = [
    (&[1, 2, 3, 4, 5, 6], 1, 6, "Ok(true)", 0, 0),
    (&[1, 2, 3, 4, 5, 6, 7], 4, 2, "Ok(true)", 0, 1),
    (
        &[1, 2, 3, 4, 5],
        2,
        9,
        "Err(Truncated { expected: 6, found: 5 })",
        0,
        0,
    ),
    (&[1], 2, 9, "Err(Truncated { expected: 6, found: 1 })", 0, 0),
    (&[1, 2, 3, 4, 5, 6], 3, 1, "Err(Read)", 1, 3),
    (&[1, 2, 3, 4, 5, 6], 1, 0, "Err(Read)", 1, 6),
    (&[1, 2, 3, 4, 5, 6], 1, 1, "Err(Read)", 1, 5),
    (&[1, 2, 3, 4, 5, 6], 1, 5, "Err(Read)", 1, 1),
];

/// Fails the test unless a read in pieces gives the expected result. The frame holds `before` at first, and must be unchanged
/// unless it is read completely.
fn check_pieces(rt: &impl Test, number: usize, case: &Piecewise, before: [u8; 6]) {
    let (bytes, most, calls, answer, failures, left) = case;
    let mut frame = six_bytes(rt, before);
    let mut reader = Counted::new(pieces_of(*bytes, *most, *calls));
    let read = read_frame(rt.alloc(), &mut reader, &mut frame);
    must_show(rt, &read, *answer);
    let told = (reader.failures(), reader.inner().left.len());
    same_at(rt, told, (*failures, *left), number);
    let shown = if read.is_ok() {
        [1, 2, 3, 4, 5, 6]
    } else {
        before
    };
    same_at(rt, frame, six_bytes(rt, shown), number);
}

#[test]
fn frames_are_read_in_pieces_whole_or_not_at_all(rt: HostRuntime) {
    for (number, case) in PIECES.iter().enumerate() {
        check_pieces(&rt, number, case, [0; 6]);
        check_pieces(&rt, number, case, [11, 12, 13, 14, 15, 16]);
    }
}

/// The bytes 11 to 16 in the border of `IN_200`.
const READ_IN_200: [u8; 18] = [
    200, 200, 200, 200, 200, 200, 200, 11, 12, 13, 200, 200, 200, 14, 15, 16, 200, 200,
];

#[test]
fn borders_are_kept(rt: HostRuntime) {
    let rt = &rt;
    let mut frame = with_buffer(rt, BORDERED, &IN_200);
    let mut reader = Counted::new([11, 12, 13, 14, 15, 16].as_slice());
    let read = read_frame(rt.alloc(), &mut reader, &mut frame);
    same(rt, (read, reader.get_ref().len()), (Ok(true), 0));
    must_show_rows(rt, &luma(frame), BORDERED, &READ_IN_200);
}

/// Fails the test unless reading the bytes 1 to 12 fills the planes with these pixels, and `left` bytes are not read.
fn check_read<T: Pixel>(
    rt: &impl Test,
    mut frame: Frame<T>,
    [y, u, v]: [Option<&[T]>; 3],
    left: usize,
) {
    let mut reader = Counted::new([1, 2, 3, 4, 5, 6, 7, 8, 9, 10, 11, 12].as_slice());
    let read = read_frame(rt.alloc(), &mut reader, &mut frame);
    same(rt, read, Ok(true));
    same(rt, reader.get_ref().len(), left);
    must_have_plane(rt, &frame, 0, y);
    must_have_plane(rt, &frame, 1, u);
    must_have_plane(rt, &frame, 2, v);
    drop(frame);
}

#[test]
fn words_are_read_low_byte_first_and_planes_that_a_user_replaced(rt: HostRuntime) {
    let rt = &rt;
    let words = built::<u16>(rt, padded((2, 2), Yuv420, 9, [0; 4]));
    let y: &[u16] = &[0x0201, 0x0403, 0x0605, 0x0807];
    check_read(rt, words, [Some(y), Some(&[0x0A09]), Some(&[0x0C0B])], 0);
    let replaced = without_u(rt, [0; 6], [0; 6]);
    let v: &[u8] = &[5, 6, 7, 8, 9, 10];
    check_read(rt, replaced, [Some(&[1, 2, 3, 4]), None, Some(v)], 2);
}

//! Tests of copies of bytes into a plane, packed and with a stride.

use crate::tests::support::buffers::{expected_buffer, must_hold, must_show_rows};
use crate::tests::support::bytes::{stepped, stepped_words};
use crate::tests::support::checks::{Test, must_have, same_at};
use crate::tests::support::frames::{BARE, BORDERED, blank_plane, numbered_plane, plane_of};
use crate::tests::support::texts::must_show;
use v_frame::pixel::Pixel;
use v_frame::plane::Plane;

/// A copy: the source, its stride, the debug text of the expected result, and the buffer after the copy.
type Copied<'a, T> = (&'a [u8], usize, &'a str, &'a [T]);

/// Fails the test unless each of these copies into a plane, one after another, gives the expected result and buffer.
fn check_copies<T: Pixel>(rt: &impl Test, plane: &mut Plane<T>, copies: &[Copied<'_, T>]) {
    for (source, stride, answer, after) in copies {
        let copied = plane.copy_from_u8_slice_with_stride(*source, *stride);
        must_show(rt, &copied, *answer);
        must_have(rt, plane, *after);
    }
}

/// The pixels 1 to 6 in a border of numbered entries.
const BEFORE: [u8; 18] = [
    100, 101, 102, 103, 104, 105, 106, 1, 2, 3, 110, 111, 112, 4, 5, 6, 116, 117,
];

/// The pixels 10 to 60 in the same border.
const AFTER: [u8; 18] = [
    100, 101, 102, 103, 104, 105, 106, 10, 20, 30, 110, 111, 112, 40, 50, 60, 116, 117,
];

/// Two rows of three bytes, each with a tail of two bytes.
static TAILS: [Copied<'static, u8>; 2] = [
    (
        &[10, 20, 30, 99, 99, 40, 50, 60],
        5,
        "Err(DataLength { expected: 10, found: 8 })",
        &BEFORE,
    ),
    (
        &[10, 20, 30, 99, 99, 40, 50, 60, 99, 99],
        5,
        "Ok(())",
        &AFTER,
    ),
];

/// Strides and lengths for a plane of five by two bytes.
static FIVE: [Copied<'static, u8>; 5] = [
    (
        &[1; 8],
        4,
        "Err(InvalidStride { stride: 4, width: 5 })",
        &[0; 10],
    ),
    (
        &[],
        0,
        "Err(InvalidStride { stride: 0, width: 5 })",
        &[0; 10],
    ),
    (
        &[1; 11],
        5,
        "Err(DataLength { expected: 10, found: 11 })",
        &[0; 10],
    ),
    (&[1; 10], 5, "Ok(())", &[1; 10]),
    (&[2; 12], 6, "Ok(())", &[2; 10]),
];

/// Strides for which the length of two rows does not fit into a `usize`, and the largest stride for which it does.
static LARGEST: [Copied<'static, u8>; 3] = [
    (
        &[1, 2, 3, 4],
        usize::MAX,
        "Err(DataLength { expected: 18446744073709551615, found: 4 })",
        &[0; 6],
    ),
    (
        &[],
        9223372036854775808,
        "Err(DataLength { expected: 18446744073709551615, found: 0 })",
        &[0; 6],
    ),
    (
        &[],
        9223372036854775807,
        "Err(DataLength { expected: 18446744073709551614, found: 0 })",
        &[0; 6],
    ),
];

/// One byte too few for each row of two by two bytes.
static SQUARE: [Copied<'static, u8>; 1] = [(
    &[1; 4],
    3,
    "Err(DataLength { expected: 6, found: 4 })",
    &[0; 4],
)];

#[test]
fn bytes_are_copied_without_their_tails_or_refused(rt: HostRuntime) {
    let rt = &rt;
    let mut bordered = plane_of::<u8>(rt, BORDERED, &BEFORE);
    check_copies(rt, &mut bordered, &TAILS);
    must_show_rows(rt, &bordered, BORDERED, &AFTER);
    check_copies(rt, &mut blank_plane(rt, (5, 2, [0; 4])), &FIVE);
    check_copies(rt, &mut blank_plane(rt, BARE), &LARGEST);
    check_copies(rt, &mut blank_plane(rt, (2, 2, [0; 4])), &SQUARE);
}

/// Strides in bytes for a plane of two by two two-byte pixels.
static WORDS: [Copied<'static, u16>; 5] = [
    (
        &[2, 1, 4, 3, 255, 255],
        3,
        "Err(InvalidStride { stride: 3, width: 2 })",
        &[0; 4],
    ),
    (
        &[2, 1, 4, 3, 255, 255, 6, 5],
        3,
        "Err(InvalidStride { stride: 3, width: 2 })",
        &[0; 4],
    ),
    (
        &[],
        0,
        "Err(InvalidStride { stride: 0, width: 2 })",
        &[0; 4],
    ),
    (
        &[2, 1, 4, 3, 255, 255],
        6,
        "Err(DataLength { expected: 12, found: 6 })",
        &[0; 4],
    ),
    (
        &[2, 1, 4, 3, 255, 255, 6, 5, 8, 7, 255, 255],
        6,
        "Ok(())",
        &[0x0102, 0x0304, 0x0506, 0x0708],
    ),
];

/// Two by two two-byte pixels, with a border column to the left and a border row below.
const PACKED: [u16; 9] = [
    0xA100, 0x0102, 0x0304, 0xA103, 0x0506, 0x0708, 0xA106, 0xA107, 0xA108,
];

#[test]
fn words_are_copied_packed_and_by_strides_in_bytes(rt: HostRuntime) {
    let rt = &rt;
    check_copies(rt, &mut blank_plane(rt, (2, 2, [0; 4])), &WORDS);
    let before = [0xA100, 0, 0, 0xA103, 0, 0, 0xA106, 0xA107, 0xA108];
    let mut plane = plane_of::<u16>(rt, (2, 2, [1, 0, 0, 1]), &before);
    let copied = plane.copy_from_u8_slice(&[2, 1, 4, 3, 6, 5, 8, 7]);
    must_show(rt, &copied, "Ok(())");
    must_have(rt, &plane, &PACKED);
    let refused = plane.copy_from_u8_slice(&[2, 1, 4, 3]);
    must_show(rt, &refused, "Err(DataLength { expected: 8, found: 4 })");
    must_have(rt, &plane, &PACKED);
}

/// The widths of planes of two-byte pixels, the strides of sources with two rows for them, and the last pixel of the second
/// row.
static WIDTHS: [(usize, usize, u16); 5] = [
    (1, 3, 0x2720),
    (15, 31, 0xEBE4),
    (16, 33, 0xF9F2),
    (17, 35, 0x0700),
    (33, 67, 0xE7E0),
];

/// Copies two rows of `stride` bytes into a plane. Their first bytes are 1 and 32, and each further byte is larger by 7. Fails
/// the test unless the first pixel of each row comes from its bytes, and the last pixel is `last`.
fn copy_two_rows(
    rt: &impl Test,
    plane: &mut Plane<u16>,
    (width, stride, last): (usize, usize, u16),
) {
    let source = stepped(rt, &[1, 32], 7, stride);
    let copied = plane.copy_from_u8_slice_with_stride(source.as_slice(), stride);
    same_at(rt, copied, Ok(()), width);
    let found = [
        plane.pixel(0, 0),
        plane.pixel(0, 1),
        plane.pixel(width.saturating_sub(1), 1),
    ];
    same_at(rt, found, [Some(0x0801), Some(0x2720), Some(last)], width);
}

#[test]
fn words_of_each_width_leave_their_border(rt: HostRuntime) {
    let rt = &rt;
    for case in &WIDTHS {
        let layout = (case.0, 2, [3, 1, 0, 0]);
        let words = stepped_words(rt, &[1, 32], 7, case.0);
        let mut plane = numbered_plane::<u16>(rt, layout);
        copy_two_rows(rt, &mut plane, *case);
        must_hold(rt, &plane, layout, words.as_slice());
        plane.data_mut().fill(0xABCD);
        copy_two_rows(rt, &mut plane, *case);
        let wanted = expected_buffer(rt, layout, Some(0xABCD), words.as_slice());
        must_have(rt, &plane, wanted.as_slice());
    }
}

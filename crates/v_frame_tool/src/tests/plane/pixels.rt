//! Tests of pixels that are read and written past the width, past the last row and past the end of the buffer.

use crate::tests::support::buffers::must_show_rows;
use crate::tests::support::checks::{must, must_have, same};
use crate::tests::support::frames::{Layout, blank_plane, plane_of, write_pixel};

/// Four by three pixels in a buffer of 40 entries.
const PADDED: Layout = (4, 3, [2, 2, 1, 1]);

/// The buffer after 7 is written to the entry after the first visible row.
static WRITTEN: [u8; 40] = [
    0, 0, 0, 0, 0, 0, 0, 0, //
    0, 0, 0, 0, 0, 0, 7, 0, //
    0, 0, 0, 0, 0, 0, 0, 0, //
    0, 0, 0, 0, 0, 0, 0, 0, //
    0, 0, 0, 0, 0, 0, 0, 0,
];

#[test]
fn a_pixel_past_the_width_is_in_the_border_and_none_is_past_the_buffer(rt: HostRuntime) {
    let rt = &rt;
    let mut plane = blank_plane::<u8>(rt, PADDED);
    same(rt, [plane.pixel(5, 3), plane.pixel(6, 3)], [Some(0), None]);
    must_have(rt, &plane, &[0; 40]);
    write_pixel(rt, &mut plane, 4, 0, 7);
    same(rt, plane.pixel(4, 0), Some(7));
    must_show_rows(rt, &plane, PADDED, &WRITTEN);
}

#[test]
fn a_pixel_past_the_width_is_in_the_next_row_and_none_is_far_away(rt: HostRuntime) {
    let rt = &rt;
    let buffer = [1, 2, 3, 4, 5, 6, 7, 8, 9, 10, 11, 12, 13, 14, 15, 16];
    let plane = plane_of::<u8>(rt, (4, 4, [0; 4]), &buffer);
    let around = [
        plane.pixel(0, 4),
        plane.pixel(16, 0),
        plane.pixel(usize::MAX, usize::MAX),
        plane.pixel(4, 0),
        plane.pixel(0, 1),
    ];
    same(rt, around, [None, None, None, Some(5), Some(5)]);
    let mut plane = plane_of::<u8>(rt, (2, 1, [0; 4]), &[1, 2]);
    let far = [
        plane.pixel(0, 9223372036854775808),
        plane.pixel(usize::MAX, 1),
    ];
    same(rt, far, [None; 2]);
    must(rt, plane.pixel_mut(0, usize::MAX).is_none());
}

//! Tests of the iterators that lend rows and pixels of a plane for writing.

use crate::tests::support::buffers::{COUNTED, IN_200, must_hold};
use crate::tests::support::checks::{Test, must_have, same};
use crate::tests::support::frames::{
    BARE, BORDERED, Layout, blank_plane, numbered_plane, plane_of,
};
use v_frame::plane::Plane;

/// Replaces a lent pixel by `value`, and returns its old value.
fn replace(pixel: Option<&mut u8>, value: u8) -> Option<u8> {
    let pixel = pixel?;
    let before = *pixel;
    *pixel = value;
    Some(before)
}

/// Writes the numbers from 0 on, pixel by pixel.
fn count_up(plane: &mut Plane<u8>) {
    let mut next = 0;
    for pixel in plane.pixels_mut() {
        *pixel = next;
        next = u8::wrapping_add(next, 1);
    }
}

/// Makes three calls, of which the first and the last replace their pixel. Fails the test unless they yield the last, the first
/// and the second of six pixels, and leave the expected buffer.
fn check_calls(rt: &impl Test, before: &[u8], after: &[u8]) {
    let mut plane = plane_of(rt, BORDERED, before);
    let mut pixels = plane.pixels_mut();
    let first = (replace(pixels.next_back(), 9), pixels.len());
    let second = (pixels.next().copied(), pixels.len());
    let third = (replace(pixels.next(), 7), pixels.len());
    let wanted = [(Some(6), 5), (Some(1), 4), (Some(2), 3)];
    same(rt, [first, second, third], wanted);
    same(rt, pixels.size_hint(), (3, Some(3)));
    drop(pixels);
    must_have(rt, &plane, after);
}

/// The pixels 1 to 6 with the second replaced by 7 and the last by 9, in the border of `COUNTED`.
const WRITTEN: [u8; 18] = [
    100, 101, 102, 103, 104, 105, 106, 1, 7, 3, 110, 111, 112, 4, 5, 9, 116, 117,
];

/// The pixels of `WRITTEN` in the border of `IN_200`.
const WRITTEN_IN_200: [u8; 18] = [
    200, 200, 200, 200, 200, 200, 200, 1, 7, 3, 200, 200, 200, 4, 5, 9, 200, 200,
];

#[test]
fn a_padded_plane_is_written_call_by_call(rt: HostRuntime) {
    check_calls(&rt, &IN_200, &WRITTEN_IN_200);
    check_calls(&rt, &COUNTED, &WRITTEN);
}

/// Fails the test unless the pixels of a numbered plane are counted up, and its border is unchanged.
fn check_counted(rt: &impl Test, layout: Layout, wanted: &[u8]) {
    let mut plane = numbered_plane::<u8>(rt, layout);
    count_up(&mut plane);
    let pixels: Vec<u8> = plane.pixels().collect(rt.alloc()).expect(rt, "memory");
    same(rt, pixels.as_slice(), wanted);
    must_hold(rt, &plane, layout, wanted);
}

#[test]
fn filled_pixels_are_read_back_in_order_and_from_both_ends(rt: HostRuntime) {
    let rt = &rt;
    let padded = (4, 3, [2, 2, 1, 1]);
    check_counted(rt, padded, &[0, 1, 2, 3, 4, 5, 6, 7, 8, 9, 10, 11]);
    check_counted(rt, (2, 3, [0; 4]), &[0, 1, 2, 3, 4, 5]);
    let mut plane = blank_plane::<u8>(rt, BARE);
    count_up(&mut plane);
    let mut pixels = plane.pixels();
    let outer = [pixels.next(), pixels.next_back()];
    let inner = [pixels.next(), pixels.next_back()];
    let last = [pixels.next(), pixels.next()];
    let past = [pixels.next(), pixels.next_back()];
    same(rt, outer, [Some(0), Some(5)]);
    same(rt, inner, [Some(1), Some(4)]);
    same(rt, last, [Some(2), Some(3)]);
    same(rt, past, [None; 2]);
}

/// Fills three rows, the last of them second. Fails the test unless the numbers of remaining rows are as expected, the rows
/// read from both ends have their values, and the border is unchanged.
fn check_filled(rt: &impl Test, padding: [usize; 4]) {
    let layout = (3, 3, padding);
    let mut plane = numbered_plane::<u8>(rt, layout);
    let mut rows = plane.rows_mut();
    same(rt, (rows.len(), rows.size_hint()), (3, (3, Some(3))));
    rows.next().expect(rt, "a row").fill(1);
    rows.next_back().expect(rt, "a row").fill(3);
    same(rt, rows.len(), 1);
    rows.next().expect(rt, "a row").fill(2);
    drop(rows);
    must_hold(rt, &plane, layout, &[1, 1, 1, 2, 2, 2, 3, 3, 3]);
    let mut rows = plane.rows();
    same(rt, rows.next(), Some([1; 3].as_slice()));
    same(rt, rows.next_back(), Some([3; 3].as_slice()));
    same(rt, rows.next(), Some([2; 3].as_slice()));
}

#[test]
fn rows_and_pixels_are_filled_from_both_ends(rt: HostRuntime) {
    let rt = &rt;
    check_filled(rt, [0, 0, 0, 0]);
    check_filled(rt, [1, 2, 1, 1]);
    let mut plane = blank_plane::<u8>(rt, (2, 2, [0, 0, 0, 0]));
    let mut pixels = plane.pixels_mut();
    let first = replace(pixels.next(), 10);
    let last = replace(pixels.next_back(), 40);
    let second = replace(pixels.next(), 20);
    let third = replace(pixels.next(), 30);
    drop(pixels);
    same(rt, [first, last, second, third], [Some(0); 4]);
    must_have(rt, &plane, &[10, 20, 30, 40]);
    let mut row = blank_plane::<u8>(rt, (2, 1, [0, 0, 0, 0]));
    let mut pixels = row.pixels_mut();
    let begun = replace(pixels.next(), 10);
    let finished = replace(pixels.next_back(), 20);
    let past = replace(pixels.next(), 30);
    drop(pixels);
    same(rt, [begun, finished, past], [Some(0), Some(0), None]);
    must_have(rt, &row, &[10, 20]);
}

//! Tests of the iterators over the rows, the pixels and the bytes of planes: the numbers of items, and the remaining items.

use crate::tests::support::buffers::IN_200;
use crate::tests::support::checks::{Test, must_have, same};
use crate::tests::support::frames::{BORDERED, blank_plane, plane_of};
use v_frame::pixel::Pixel;
use v_frame::plane::Plane;

/// Fails the test unless a plane has `length` bytes, of which `left` remain after one was taken.
fn check_length<T: Pixel>(rt: &impl Test, plane: &Plane<T>, length: usize, left: usize) {
    let mut bytes = plane.byte_data();
    same(rt, bytes.len(), length);
    let _ = bytes.next();
    same(rt, bytes.len(), left);
}

#[test]
fn rows_pixels_and_bytes_are_counted(rt: HostRuntime) {
    let rt = &rt;
    same(rt, blank_plane::<u8>(rt, (10, 5, [0; 4])).rows().count(), 5);
    let large = blank_plane::<u8>(rt, (1920, 1080, [0; 4]));
    same(rt, large.pixels().count(), 2073600);
    check_length(rt, &blank_plane::<u8>(rt, (4, 3, [0; 4])), 12, 11);
    check_length(rt, &blank_plane::<u16>(rt, (4, 3, [0; 4])), 24, 23);
}

#[test]
fn bytes_come_by_turns_and_the_low_one_first(rt: HostRuntime) {
    let rt = &rt;
    let plane = plane_of::<u8>(rt, (2, 2, [0; 4]), &[1, 2, 3, 4]);
    let mut bytes = plane.byte_data();
    let front = [bytes.next(), bytes.next_back()];
    let rest = [bytes.next(), bytes.next_back()];
    same(rt, [front, rest], [[Some(1), Some(4)], [Some(2), Some(3)]]);
    let words = [0x0102, 0x0304, 0x0506, 0x0708];
    let plane = plane_of::<u16>(rt, (2, 2, [0; 4]), &words);
    let bytes: Vec<u8> = plane.byte_data().collect(rt.alloc()).expect(rt, "memory");
    same(rt, bytes.as_slice(), [2, 1, 4, 3, 6, 5, 8, 7].as_slice());
}

#[test]
fn iterators_whose_items_are_not_written_leave_the_buffer(rt: HostRuntime) {
    let rt = &rt;
    let mut plane = plane_of::<u8>(rt, BORDERED, &IN_200);
    drop(plane.rows_mut());
    must_have(rt, &plane, &IN_200);
    drop(plane.pixels_mut());
    must_have(rt, &plane, &IN_200);
    let mut pixels = plane.pixels_mut();
    for left in [4, 2, 0] {
        let both = [pixels.next().is_some(), pixels.next_back().is_some()];
        same(rt, (both, pixels.len()), ([true; 2], left));
    }
    drop(pixels);
    must_have(rt, &plane, &IN_200);
}

//! Tests of rows and pixels that are lent, and written after their iterator is dropped.

use crate::tests::support::buffers::{COUNTED, IN_200, must_show_rows};
use crate::tests::support::frames::{BORDERED, Layout, plane_of};
use v_frame::plane::Plane;

/// Writes 40 to the first pixel of the last row and then 30 to the last pixel of the first row, after their iterator is
/// dropped.
fn write_held_rows(plane: &mut Plane<u8>) {
    let mut rows = plane.rows_mut();
    let (first, last) = (rows.next(), rows.next_back());
    drop(rows);
    if let Some(row) = last {
        if let Some(pixel) = row.get_mut(0) {
            *pixel = 40;
        }
    }
    if let Some(row) = first {
        if let Some(pixel) = row.get_mut(2) {
            *pixel = 30;
        }
    }
}

/// Writes 9 to the last pixel and then 7 to the first pixel, after their iterator is dropped.
fn write_held_pixels(plane: &mut Plane<u8>) {
    let mut pixels = plane.pixels_mut();
    let (first, last) = (pixels.next(), pixels.next_back());
    drop(pixels);
    if let Some(pixel) = last {
        *pixel = 9;
    }
    if let Some(pixel) = first {
        *pixel = 7;
    }
}

/// Buffers before the writes, after the writes to rows, and after the writes to pixels.
static HELD: [[[u8; 18]; 3]; 2] = [
    [
        IN_200,
        [
            200, 200, 200, 200, 200, 200, 200, 1, 2, 30, 200, 200, 200, 40, 5, 6, 200, 200,
        ],
        [
            200, 200, 200, 200, 200, 200, 200, 7, 2, 3, 200, 200, 200, 4, 5, 9, 200, 200,
        ],
    ],
    [
        COUNTED,
        [
            100, 101, 102, 103, 104, 105, 106, 1, 2, 30, 110, 111, 112, 40, 5, 6, 116, 117,
        ],
        [
            100, 101, 102, 103, 104, 105, 106, 7, 2, 3, 110, 111, 112, 4, 5, 9, 116, 117,
        ],
    ],
];

#[test]
fn held_rows_and_pixels_are_written_and_no_border(rt: HostRuntime) {
    let rt = &rt;
    for [before, rows, pixels] in &HELD {
        let mut plane = plane_of(rt, BORDERED, before);
        write_held_rows(&mut plane);
        must_show_rows(rt, &plane, BORDERED, rows);
        let mut plane = plane_of(rt, BORDERED, before);
        write_held_pixels(&mut plane);
        must_show_rows(rt, &plane, BORDERED, pixels);
    }
}

/// Takes the last pixel, the first pixel and the last but one. After their iterator is dropped, it writes 20 to the last but
/// one, 10 to the first, and then 11 to the first.
fn write_two_of_three(plane: &mut Plane<u16>) {
    let mut pixels = plane.pixels_mut();
    let (_last, first, held) = (pixels.next_back(), pixels.next(), pixels.next_back());
    drop(pixels);
    if let Some(pixel) = held {
        *pixel = 20;
    }
    if let Some(pixel) = first {
        *pixel = 10;
        *pixel = 11;
    }
}

/// Two by two pixels with a border column to the left and a border row below.
const WORDS: Layout = (2, 2, [1, 0, 0, 1]);

/// Buffers before and after two of their pixels are written.
static HELD_WORDS: [[[u16; 9]; 2]; 2] = [
    [
        [500, 1, 2, 500, 3, 4, 500, 500, 500],
        [500, 11, 2, 500, 20, 4, 500, 500, 500],
    ],
    [
        [0xA100, 1, 2, 0xA103, 3, 4, 0xA106, 0xA107, 0xA108],
        [0xA100, 11, 2, 0xA103, 20, 4, 0xA106, 0xA107, 0xA108],
    ],
];

#[test]
fn held_words_are_written_in_another_order(rt: HostRuntime) {
    for [before, after] in &HELD_WORDS {
        let mut plane = plane_of(&rt, WORDS, before);
        write_two_of_three(&mut plane);
        must_show_rows(&rt, &plane, WORDS, after);
    }
}

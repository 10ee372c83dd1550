//! Tests of rows of bytes that are decoded into rows of pixels, for each length around a block of sixteen.

use crate::tests::support::bytes::{stepped, stepped_words};
use crate::tests::support::checks::{Test, must, same, same_at};
use v_frame::pixel::Pixel;

/// Fails the test unless a row of `count` two-byte pixels is decoded from the bytes 48, 85 and so on, and the entries after it
/// are unchanged.
fn check_decoded(rt: &impl Test, bytes: &[u8], count: usize) {
    let end = count.saturating_mul(2).saturating_add(1);
    let part = bytes.get(1..end).expect(rt, "so many bytes");
    let mut row = [0xABCD; 50];
    let front = row.get_mut(..count).expect(rt, "so many words");
    must(rt, part.len() == front.len() * 2);
    u16::decode_row(front, part);
    let mut wanted = stepped_words(rt, &[48], 37, count);
    wanted.resize(50, 0xABCD).expect(rt, "memory");
    same_at(rt, row.as_slice(), wanted.as_slice(), count);
}

#[test]
fn words_of_rows_of_each_length_come_from_their_bytes(rt: HostRuntime) {
    let rt = &rt;
    let source = [
        0, 1, 2, 3, 4, 5, 6, 7, 8, 9, 10, 11, 12, 13, 14, 15, 16, 17, 18, 19, 20, 21, 22, 23, 24,
        25, 26, 27, 28, 29, 30, 31, 32, 33,
    ];
    let mut words = [0; 17];
    u16::decode_row(&mut words, &source);
    let three = [words[0], words[15], words[16]];
    same(rt, three, [0x0100, 0x1F1E, 0x2120]);
    let bytes = stepped(rt, &[11], 37, 120);
    for count in 0..50 {
        check_decoded(rt, bytes.as_slice(), count);
    }
}

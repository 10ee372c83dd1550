//! Buffers with numbered entries, so that each entry of a border has a different value.

use crate::tests::support::checks::{Test, must, must_have, same};
use crate::tests::support::frames::{BORDERED, Layout};
use v_frame::pixel::Pixel;
use v_frame::plane::Plane;

/// Returns the number of the entry at an index: 100 plus the index for pixels of one byte, 0xA100 plus the index for two bytes.
pub fn number_at<T: Pixel>(rt: &impl Test, place: usize) -> T {
    let first = if T::BYTES == 1 { 100 } else { 0xA100 };
    let number = u16::try_from(place.saturating_add(first)).ok();
    T::try_from_u16(number.expect(rt, "a small buffer")).expect(rt, "a pixel")
}

/// Returns the buffer of a plane with these visible pixels, row by row. The border has this value, or is numbered.
pub fn expected_buffer<T: Pixel>(
    rt: &impl Test,
    (width, height, [left, right, top, bottom]): Layout,
    border: Option<T>,
    pixels: &[T],
) -> Vec<T> {
    let mut buffer = Vec::new(rt.alloc());
    let mut pixels = pixels.iter();
    for y in 0..top.saturating_add(height).saturating_add(bottom) {
        for x in 0..left.saturating_add(width).saturating_add(right) {
            let is_pixel = x.wrapping_sub(left) < width && y.wrapping_sub(top) < height;
            let mut entry = border.unwrap_or(number_at(rt, buffer.len()));
            if is_pixel {
                entry = *pixels.next().expect(rt, "a pixel");
            }
            buffer.push(entry).expect(rt, "memory");
        }
    }
    buffer
}

/// Fails the test unless a plane has the numbered buffer with these visible pixels.
pub fn must_hold<T: Pixel>(rt: &impl Test, plane: &Plane<T>, layout: Layout, pixels: &[T]) {
    let buffer = expected_buffer(rt, layout, None, pixels);
    must_have(rt, plane, buffer.as_slice());
}

/// Fails the test unless a plane has this buffer, its rows are those of the buffer, and it has no further row.
pub fn must_show_rows<T: Pixel>(
    rt: &impl Test,
    plane: &Plane<T>,
    (width, height, [left, right, top, _bottom]): Layout,
    buffer: &[T],
) {
    must_have(rt, plane, buffer);
    let stride = left.saturating_add(width).saturating_add(right);
    let mut start = top.saturating_mul(stride).saturating_add(left);
    for y in 0..height {
        let wanted = buffer.get(start..start.saturating_add(width));
        must(rt, wanted.is_some());
        same(rt, plane.row(y), wanted);
        start = start.saturating_add(stride);
    }
    same(rt, plane.row(height), None);
}

/// The pixels 1 to 6, three by two, in a border whose entries all differ.
pub const COUNTED: [u8; 18] = [
    100, 101, 102, 103, 104, 105, 106, 1, 2, 3, 110, 111, 112, 4, 5, 6, 116, 117,
];

/// The pixels of `COUNTED` with 200 in all twelve border entries.
pub const IN_200: [u8; 18] = [
    200, 200, 200, 200, 200, 200, 200, 1, 2, 3, 200, 200, 200, 4, 5, 6, 200, 200,
];

/// Three by three pixels, counted from 0.
pub const NINE: [u8; 9] = [0, 1, 2, 3, 4, 5, 6, 7, 8];

#[test]
fn expected_buffers_are_numbered_around_their_pixels(rt: HostRuntime) {
    let rt = &rt;
    let bytes = expected_buffer::<u8>(rt, BORDERED, None, &[1, 2, 3, 4, 5, 6]);
    same(rt, bytes.as_slice(), COUNTED.as_slice());
    let words = expected_buffer::<u16>(rt, (1, 1, [0, 1, 0, 1]), None, &[7]);
    same(rt, words.as_slice(), [7, 0xA101, 0xA102, 0xA103].as_slice());
}

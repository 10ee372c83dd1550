//! Frames that are blank, frames with a given buffer, and frames with a picture in a border.

use crate::tests::support::buffers::number_at;
use crate::tests::support::checks::{Test, must, same_at};
use v_frame::chroma::ChromaSubsampling::{self, Monochrome};
use v_frame::frame::{Frame, FrameBuilder};
use v_frame::pixel::Pixel;
use v_frame::plane::Plane;

/// The width and the height of a plane, and its paddings left, right, top and bottom.
pub type Layout = (usize, usize, [usize; 4]);

/// Three by two pixels without a border.
pub const BARE: Layout = (3, 2, [0, 0, 0, 0]);

/// Three by two pixels in a buffer of 18 entries.
pub const BORDERED: Layout = (3, 2, [1, 2, 1, 0]);

/// Returns a builder with this size, format and bit depth, and with the luma paddings left, right, top and bottom.
pub fn padded(
    (width, height): (usize, usize),
    subsampling: ChromaSubsampling,
    bit_depth: u8,
    padding: [usize; 4],
) -> FrameBuilder {
    let [left, right, top, bottom] = padding;
    FrameBuilder::new(width, height, subsampling, bit_depth)
        .luma_padding_left(left)
        .luma_padding_right(right)
        .luma_padding_top(top)
        .luma_padding_bottom(bottom)
}

/// Returns the frame that `builder` builds.
pub fn built<T: Pixel>(rt: &impl Test, builder: FrameBuilder) -> Frame<T> {
    builder.build(rt.alloc()).expect(rt, "a frame")
}

/// Returns a monochrome frame of zeros, including its border. The bit depth is 8 for one-byte pixels and 16 for two-byte
/// pixels.
pub fn zeros<T: Pixel>(rt: &impl Test, (width, height, padding): Layout) -> Frame<T> {
    let depth = if T::BYTES == 1 { 8 } else { 16 };
    built(rt, padded((width, height), Monochrome, depth, padding))
}

/// Returns a monochrome frame with this buffer.
pub fn with_buffer<T: Pixel>(rt: &impl Test, layout: Layout, buffer: &[T]) -> Frame<T> {
    let mut frame = zeros(rt, layout);
    let data = frame.y_plane.data_mut();
    must(rt, data.len() == buffer.len());
    data.copy_from_slice(buffer);
    frame
}

/// Returns a monochrome frame with numbered entries, including its border.
pub fn numbered<T: Pixel>(rt: &impl Test, layout: Layout) -> Frame<T> {
    let mut frame = zeros(rt, layout);
    for (place, entry) in frame.y_plane.data_mut().iter_mut().enumerate() {
        *entry = number_at(rt, place);
    }
    frame
}

/// Returns the luma plane of a frame.
pub fn luma<T: Pixel>(frame: Frame<T>) -> Plane<T> {
    frame.y_plane
}

/// Returns a plane of zeros, including its border.
pub fn blank_plane<T: Pixel>(rt: &impl Test, layout: Layout) -> Plane<T> {
    luma(zeros(rt, layout))
}

/// Returns a plane with this buffer.
pub fn plane_of<T: Pixel>(rt: &impl Test, layout: Layout, buffer: &[T]) -> Plane<T> {
    luma(with_buffer(rt, layout, buffer))
}

/// Returns a plane with numbered entries, including its border.
pub fn numbered_plane<T: Pixel>(rt: &impl Test, layout: Layout) -> Plane<T> {
    luma(numbered(rt, layout))
}

/// Fails the test unless the plane with this index has this buffer, or is absent if none is given.
pub fn must_have_plane<T: Pixel>(
    rt: &impl Test,
    frame: &Frame<T>,
    index: usize,
    wanted: Option<&[T]>,
) {
    let found = match frame.plane(index) {
        Some(plane) => Some(plane.data()),
        None => None,
    };
    same_at(rt, found, wanted, index);
}

/// Writes a pixel of a plane.
pub fn write_pixel<T: Pixel>(rt: &impl Test, plane: &mut Plane<T>, x: usize, y: usize, value: T) {
    *plane.pixel_mut(x, y).expect(rt, "a pixel") = value;
}

/// Writes the first pixel of the plane with this index.
pub fn mark<T: Pixel>(rt: &impl Test, frame: &mut Frame<T>, index: usize, value: T) {
    let plane = frame.plane_mut(index).expect(rt, "a plane");
    write_pixel(rt, plane, 0, 0, value);
}

//! Tests of frames that cannot be built, and of the errors.

use crate::tests::support::checks::Test;
use crate::tests::support::frames::padded;
use crate::tests::support::texts::must_show;
use v_frame::chroma::ChromaSubsampling::{self, Monochrome, Yuv411, Yuv420, Yuv422, Yuv444};
use v_frame::pixel::Pixel;

/// A width, a height, a format, a bit depth, and the paddings left, right, top and bottom.
type Shape = ((usize, usize), ChromaSubsampling, u8, [usize; 4]);

/// One-byte frames with the debug text of the build error, or `None` if the frame can be built.
static BYTES: [(Shape, &str); 18] = [
    (((0, 1080), Yuv420, 8, [0; 4]), SIZE),
    (((1921, 1080), Yuv420, 8, [0; 4]), SIZE),
    (((1920, 1081), Yuv420, 8, [0; 4]), SIZE),
    (((1920, 0), Yuv422, 8, [0; 4]), SIZE),
    (((1921, 1080), Yuv422, 8, [0; 4]), SIZE),
    (((1920, 1080), Yuv420, 8, [15, 0, 0, 0]), SIZE),
    (((1920, 1080), Yuv422, 8, [15, 0, 0, 0]), SIZE),
    (((1920, 1080), Yuv444, 8, [15, 0, 0, 0]), "None"),
    (((6, 2), Yuv411, 8, [0; 4]), SIZE),
    (((8, 2), Yuv411, 8, [2, 8, 1, 0]), SIZE),
    (((8, 2), Yuv411, 8, [4, 6, 1, 0]), SIZE),
    (((8, 2), Yuv411, 8, [4, 8, 3, 0]), "None"),
    (((2, 2), Yuv422, 8, [0, 0, usize::MAX, 0]), SIZE),
    (((2, 2), Yuv422, 8, [usize::MAX, 0, 0, 0]), SIZE),
    (((4611686018427387904, 1), Monochrome, 8, [0; 4]), SIZE),
    (((1920, 1080), Yuv420, 7, [0; 4]), SEVEN),
    (((1920, 1080), Yuv420, 10, [0; 4]), TYPE),
    (
        ((4611686018427387903, 1), Monochrome, 8, [0; 4]),
        "Some(OutOfMemory)",
    ),
];

/// The error for a size or a padding.
const SIZE: &str = "Some(UnsupportedResolution)";

/// The error for a bit depth of 7.
const SEVEN: &str = "Some(UnsupportedBitDepth { found: 7 })";

/// The error for the pixel type.
const TYPE: &str = "Some(DataTypeMismatch)";

/// Two-byte frames that cannot be built, with the debug text of the error.
static WORDS: [(Shape, &str); 3] = [
    (((1920, 1080), Yuv420, 8, [0; 4]), TYPE),
    (
        ((0, 1080), Yuv420, 17, [0; 4]),
        "Some(UnsupportedBitDepth { found: 17 })",
    ),
    (
        ((4611686018427387903, 1), Monochrome, 10, [0; 4]),
        "Some(OutOfMemory)",
    ),
];

/// Fails the test unless building each frame gives the expected error, or none.
fn check_refusals<T: Pixel>(rt: &impl Test, cases: &[(Shape, &str)]) {
    for ((size, format, depth, padding), wanted) in cases {
        let builder = padded(*size, *format, *depth, *padding);
        let refused = builder.build::<T>(rt.alloc()).err();
        must_show(rt, &refused, *wanted);
    }
}

#[test]
fn frames_are_refused_for_the_first_reason(rt: HostRuntime) {
    check_refusals::<u8>(&rt, &BYTES);
    check_refusals::<u16>(&rt, &WORDS);
}

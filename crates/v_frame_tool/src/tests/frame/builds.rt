//! Tests of frames that can be built: the sizes and the contents of their planes.

use crate::tests::support::checks::{Test, must, must_have, same, same_at};
use crate::tests::support::frames::{blank_plane, built, mark, padded};
use crate::tests::support::reads::numbers_of;
use v_frame::chroma::ChromaSubsampling::{self, Monochrome, Yuv411, Yuv420, Yuv422, Yuv444};
use v_frame::pixel::Pixel;
use v_frame::plane::Plane;

/// A width, a height, a format, a bit depth, and the paddings left, right, top and bottom.
pub type Shape = ((usize, usize), ChromaSubsampling, u8, [usize; 4]);

/// A frame, and the size of its chroma planes.
type Built = (Shape, Option<(usize, usize)>);

/// One-byte frames.
static BYTES: [Built; 10] = [
    (((1920, 1080), Yuv420, 8, [0; 4]), Some((960, 540))),
    (((1920, 1080), Yuv422, 8, [0; 4]), Some((960, 1080))),
    (((1920, 1080), Yuv411, 8, [0; 4]), Some((480, 1080))),
    (((1920, 1080), Yuv444, 8, [0; 4]), Some((1920, 1080))),
    (((1920, 1080), Monochrome, 8, [0; 4]), None),
    (
        ((1920, 1080), Yuv420, 8, [16, 16, 16, 16]),
        Some((960, 540)),
    ),
    (((1920, 1080), Yuv420, 8, [8, 16, 4, 12]), Some((960, 540))),
    (((1920, 1080), Monochrome, 8, [15, 17, 13, 19]), None),
    (((640, 480), Yuv420, 8, [0; 4]), Some((320, 240))),
    (((2, 2), Yuv420, 8, [0; 4]), Some((1, 1))),
];

/// Two-byte frames.
static WORDS: [Built; 9] = [
    (((640, 480), Yuv420, 9, [0; 4]), Some((320, 240))),
    (((640, 480), Yuv420, 10, [0; 4]), Some((320, 240))),
    (((640, 480), Yuv420, 11, [0; 4]), Some((320, 240))),
    (((640, 480), Yuv420, 12, [0; 4]), Some((320, 240))),
    (((640, 480), Yuv420, 13, [0; 4]), Some((320, 240))),
    (((640, 480), Yuv420, 14, [0; 4]), Some((320, 240))),
    (((640, 480), Yuv420, 15, [0; 4]), Some((320, 240))),
    (((640, 480), Yuv420, 16, [0; 4]), Some((320, 240))),
    (((3840, 2160), Yuv420, 10, [0; 4]), Some((1920, 1080))),
];

/// Returns the size of a plane, or `None` if there is no plane.
fn size_of<T: Pixel>(plane: Option<&Plane<T>>) -> Option<(usize, usize)> {
    match plane {
        Some(plane) => Some((plane.width(), plane.height())),
        None => None,
    }
}

/// Fails the test unless each of these frames is built as requested.
fn check_builds<T: Pixel>(rt: &impl Test, cases: &[Built]) {
    for (number, ((size, format, depth, padding), chroma)) in cases.iter().enumerate() {
        let frame = built::<T>(rt, padded(*size, *format, *depth, *padding));
        let kind = (frame.subsampling, frame.bit_depth.get());
        let sizes = [
            size_of(frame.plane(0)),
            size_of(frame.plane(1)),
            size_of(frame.plane(2)),
        ];
        drop(frame);
        same_at(rt, kind, (*format, *depth), number);
        same_at(rt, sizes, [Some(*size), *chroma, *chroma], number);
    }
}

#[test]
fn chroma_planes_have_the_size_of_the_format(rt: HostRuntime) {
    check_builds::<u8>(&rt, &BYTES);
    check_builds::<u16>(&rt, &WORDS);
}

/// Returns the first pixel of a plane, or `None` if there is no plane.
fn first_of(plane: Option<&Plane<u8>>) -> Option<u8> {
    match plane {
        Some(plane) => plane.pixel(0, 0),
        None => None,
    }
}

#[test]
fn a_mark_in_each_plane(rt: HostRuntime) {
    let rt = &rt;
    let mut frame = built::<u8>(rt, padded((1920, 1080), Yuv420, 8, [0; 4]));
    mark(rt, &mut frame, 0, 11);
    mark(rt, &mut frame, 1, 22);
    mark(rt, &mut frame, 2, 33);
    let found = [
        first_of(frame.plane(0)),
        first_of(Some(&frame.y_plane)),
        first_of(frame.plane(1)),
        first_of(frame.u_plane.as_ref()),
        first_of(frame.plane(2)),
        first_of(frame.v_plane.as_ref()),
    ];
    let wanted = [Some(11), Some(11), Some(22), Some(22), Some(33), Some(33)];
    same(rt, found, wanted);
    must(rt, frame.plane(3).is_none());
    drop(frame);
}

/// The numbers of a geometry, and a buffer.
pub type Layout<'a, T> = ([usize; 9], &'a [T]);

/// A frame, and the layouts of its luma plane and of its chroma planes.
pub type LaidOut<'a, T> = (Shape, Layout<'a, T>, Layout<'a, T>);

/// Frames with padding.
static PADDED: [LaidOut<'static, u8>; 2] = [
    (
        ((4, 2), Yuv420, 8, [2, 2, 2, 0]),
        ([4, 2, 8, 2, 2, 2, 0, 1, 1], &[0; 32]),
        ([2, 1, 4, 1, 1, 1, 0, 2, 2], &[0; 8]),
    ),
    (
        ((8, 2), Yuv411, 8, [4, 8, 1, 0]),
        ([8, 2, 20, 4, 8, 1, 0, 1, 1], &[0; 60]),
        ([2, 2, 5, 1, 2, 1, 0, 4, 1], &[0; 15]),
    ),
];

/// A two-byte frame.
static HALVED: [LaidOut<'static, u16>; 1] = [(
    ((2, 2), Yuv422, 16, [0; 4]),
    ([2, 2, 2, 0, 0, 0, 0, 1, 1], &[0; 4]),
    ([1, 2, 1, 0, 0, 0, 0, 2, 1], &[0; 2]),
)];

/// Fails the test unless a plane exists and has the expected layout.
fn must_lie<T: Pixel>(
    rt: &impl Test,
    plane: Option<&Plane<T>>,
    wanted: Layout<'_, T>,
    number: usize,
) {
    let found = match plane {
        Some(plane) => Some((numbers_of(&plane.geometry()), plane.data())),
        None => None,
    };
    same_at(rt, found, Some(wanted), number);
}

/// Fails the test unless the planes of a new frame have the expected layouts.
pub fn check_layout<T: Pixel>(
    rt: &impl Test,
    number: usize,
    (size, format, depth, padding): Shape,
    luma: Layout<'_, T>,
    chroma: Layout<'_, T>,
) {
    let frame = built::<T>(rt, padded(size, format, depth, padding));
    same_at(rt, frame.bit_depth.get(), depth, number);
    must_lie(rt, frame.plane(0), luma, number);
    must_lie(rt, frame.plane(1), chroma, number);
    must_lie(rt, frame.plane(2), chroma, number);
    drop(frame);
}

#[test]
fn planes_are_padded_and_zero(rt: HostRuntime) {
    let rt = &rt;
    for (number, (shape, luma, chroma)) in PADDED.iter().enumerate() {
        check_layout(rt, number, *shape, *luma, *chroma);
    }
    for (shape, luma, chroma) in &HALVED {
        check_layout(rt, 2, *shape, *luma, *chroma);
    }
    must_have(rt, &blank_plane::<u16>(rt, (32, 16, [0; 4])), &[0; 512]);
}

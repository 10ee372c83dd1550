//! Tests of the debug output of planes and of frames.

use crate::tests::support::buffers::NINE;
use crate::tests::support::frames::{Layout, built, padded, plane_of, with_buffer};
use crate::tests::support::texts::must_show;
use v_frame::chroma::ChromaSubsampling::Yuv422;

/// Layouts and buffers, with the expected debug output of their planes.
static PLANES: [(Layout, &[u8], &str); 3] = [
    (
        (12, 1, [0, 0, 0, 0]),
        &[0, 0, 0, 0, 42, 0, 0, 0, 0, 0, 123, 0],
        "Plane { data: [0, 0, 0, 0, 42, ..], geometry: PlaneGeometry { width: 12, height: 1, stride: 12, \
         pad_left: 0, pad_right: 0, pad_top: 0, pad_bottom: 0, subsampling_x: 1, subsampling_y: 1 } }",
    ),
    (
        (3, 1, [0, 0, 0, 0]),
        &[0, 7, 0],
        "Plane { data: [0, 7, 0], geometry: PlaneGeometry { width: 3, height: 1, stride: 3, \
         pad_left: 0, pad_right: 0, pad_top: 0, pad_bottom: 0, subsampling_x: 1, subsampling_y: 1 } }",
    ),
    (
        (3, 3, [0, 0, 0, 0]),
        &NINE,
        "Plane { data: [0, 1, 2, 3, 4, ..], geometry: PlaneGeometry { width: 3, height: 3, stride: 3, \
         pad_left: 0, pad_right: 0, pad_top: 0, pad_bottom: 0, subsampling_x: 1, subsampling_y: 1 } }",
    ),
];

/// The expected debug output of a frame of nine bytes.
const NINE_SHOWN: &str =
    "Frame { y_plane: Plane { data: [0, 1, 2, 3, 4, ..], geometry: PlaneGeometry { width: 3, height: 3, stride: 3, \
     pad_left: 0, pad_right: 0, pad_top: 0, pad_bottom: 0, subsampling_x: 1, subsampling_y: 1 } }, \
     u_plane: None, v_plane: None, subsampling: Monochrome, bit_depth: 8 }";

/// The expected debug output of a frame of two pixels in one row, whose chroma planes have one pixel.
const HALVED: &str =
    "Frame { y_plane: Plane { data: [0, 0], geometry: PlaneGeometry { width: 2, height: 1, stride: 2, \
     pad_left: 0, pad_right: 0, pad_top: 0, pad_bottom: 0, subsampling_x: 1, subsampling_y: 1 } }, \
     u_plane: Some(Plane { data: [0], geometry: PlaneGeometry { width: 1, height: 1, stride: 1, \
     pad_left: 0, pad_right: 0, pad_top: 0, pad_bottom: 0, subsampling_x: 2, subsampling_y: 1 } }), \
     v_plane: Some(Plane { data: [0], geometry: PlaneGeometry { width: 1, height: 1, stride: 1, \
     pad_left: 0, pad_right: 0, pad_top: 0, pad_bottom: 0, subsampling_x: 2, subsampling_y: 1 } }), \
     subsampling: Yuv422, bit_depth: 8 }";

#[test]
fn planes_show_five_entries_at_most_and_their_geometry(rt: HostRuntime) {
    let rt = &rt;
    for (layout, buffer, wanted) in &PLANES {
        must_show(rt, &plane_of::<u8>(rt, *layout, *buffer), *wanted);
    }
}

#[test]
fn frames_show_their_planes(rt: HostRuntime) {
    let rt = &rt;
    let nine = with_buffer(rt, (3, 3, [0; 4]), &NINE);
    must_show(rt, &nine, NINE_SHOWN);
    drop(nine);
    let halved = built::<u8>(rt, padded((2, 1), Yuv422, 8, [0; 4]));
    must_show(rt, &halved, HALVED);
    drop(halved);
}

//! Frames of six planar bytes.

use crate::tests::support::checks::{Test, must};
use crate::tests::support::frames::{BARE, built, mark, padded, plane_of};
use v_frame::chroma::ChromaSubsampling::Yuv420;
use v_frame::frame::Frame;

/// Returns a 4:2:0 frame of two by two pixels that shows these bytes: four of luma, and one of each chroma plane.
pub fn six_bytes(rt: &impl Test, bytes: [u8; 6]) -> Frame<u8> {
    let mut frame = built(rt, padded((2, 2), Yuv420, 8, [0; 4]));
    let [a, b, c, d, u, v] = bytes;
    let copied = frame.y_plane.copy_from_slice(&[a, b, c, d]);
    must(rt, copied.is_ok());
    mark(rt, &mut frame, 1, u);
    mark(rt, &mut frame, 2, v);
    frame
}

/// Returns a frame as `six_bytes` does, but without U, and with a V plane of three by two pixels that shows `v`.
pub fn without_u(rt: &impl Test, bytes: [u8; 6], v: [u8; 6]) -> Frame<u8> {
    let mut frame = six_bytes(rt, bytes);
    frame.u_plane = None;
    frame.v_plane = Some(plane_of(rt, BARE, &v));
    frame
}

//! Tests of cloned frames.

use crate::tests::support::checks::same;
use crate::tests::support::frames::{built, padded};
use v_frame::chroma::ChromaSubsampling::Yuv420;

#[test]
fn a_frame_equals_its_clone(rt: HostRuntime) {
    let rt = &rt;
    let frame = built::<u8>(rt, padded((640, 480), Yuv420, 8, [0; 4]));
    let copy = frame.clone(rt.alloc()).expect(rt, "memory");
    same(rt, frame, copy);
}

//! Frames that are built, and small frames that are read from bytes. If an allocation fails, nothing is read, and the frame is
//! unchanged.

use crate::lines;
use crate::show::{fill, show, show_built, show_frame};
use v_frame::chroma::ChromaSubsampling::{Monochrome, Yuv420};
use v_frame::frame::FrameBuilder;
use v_frame::laws;
use v_frame_planar::{Counted, read_frame, video_frame};
use v_frame_semi_planar::SemiPlanarFormat::Nv12;

/// Runs the case with this name, in this module or a later one. Returns `None` if an allocation of its preparation fails.
pub fn seen(rt: &HostRuntime, name: &str) -> Option<()> {
    let alloc = rt.alloc();
    match name {
        "build" => {
            let padded = small().luma_padding_right(2).luma_padding_top(2);
            show_built(rt, padded.build::<u8>(alloc));
        }
        "built_frame_is_zero" => show_built(rt, laws::built_frame_is_zero::<u8>(alloc, small())),
        "video_frame" => show_built(rt, video_frame::<u16>(alloc, 3, 1, Yuv420, 10, 1)),
        "read_frame_of_bytes" => read_frame_of_bytes(rt)?,
        "read_semi_planar_frame" => read_semi_planar_frame(rt)?,
        _ => lines::seen(rt, name)?,
    }
    Some(())
}

/// Returns the builder of a 4:2:0 frame with padding on its left.
fn small() -> FrameBuilder {
    FrameBuilder::new(4, 2, Yuv420, 8).luma_padding_left(2)
}

/// Reads a frame of 8-bit pixels whose border entries are 200.
fn read_frame_of_bytes(rt: &HostRuntime) -> Option<()> {
    let builder = FrameBuilder::new(3, 2, Monochrome, 8)
        .luma_padding_left(1)
        .luma_padding_right(2)
        .luma_padding_top(1);
    let mut frame = builder.build::<u8>(rt.alloc()).ok()?;
    let data = frame.y_plane.data_mut();
    fill(
        data,
        &[
            200, 200, 200, 200, 200, 200, 200, 1, 2, 3, 200, 200, 200, 4, 5, 6, 200, 200,
        ],
    );
    let mut reader = Counted::new([11, 12, 13, 14, 15, 16].as_slice());
    let read = read_frame(rt.alloc(), &mut reader, &mut frame);
    show(rt, &(read, reader.get_ref().len(), frame.y_plane.data()));
    Some(())
}

/// Four by two luma pixels, the interleaved pixels of U and V, and one more byte.
static NV12: [u8; 13] = [1, 2, 3, 4, 5, 6, 7, 8, 10, 20, 11, 21, 99];

/// Reads a frame with interleaved chroma samples.
fn read_semi_planar_frame(rt: &HostRuntime) -> Option<()> {
    let builder = FrameBuilder::new(4, 2, Yuv420, 8);
    let mut frame = builder.build::<u8>(rt.alloc()).ok()?;
    let mut reader = Counted::new(NV12.as_slice());
    let read = v_frame_semi_planar::read_frame(rt.alloc(), &mut reader, &mut frame, Nv12);
    show(rt, &(read, reader.get_ref().len()));
    show_frame(rt, &frame);
    Some(())
}

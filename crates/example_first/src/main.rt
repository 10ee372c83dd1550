//! Builds a frame, fills one row of its luma plane, and prints the rows of this plane.
#![tactic(auto)]

use std::io;
use v_frame::chroma::ChromaSubsampling;
use v_frame::frame::FrameBuilder;

fn main(rt: HostRuntime) -> io::Result<()> {
    let builder = FrameBuilder::new(4, 2, ChromaSubsampling::Yuv420, 8).luma_padding_left(16);
    let Ok(mut frame) = builder.build::<u8>(rt.alloc()) else {
        return println!(rt; "there is no memory for a frame");
    };
    frame.y_plane.visible_row_mut(1).fill(200);
    for row in frame.y_plane.rows() {
        println!(rt; "{row:?}")?;
    }
    Ok(())
}

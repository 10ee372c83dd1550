//! Replays on small 8-bit frames. If a replay is interrupted, the calls with an answer have been made, and no others.

use crate::prepared;
use crate::show::show;
use v_frame::chroma::ChromaSubsampling::Monochrome;
use v_frame::frame::{Frame, FrameBuilder};
use v_frame::laws::bytes_go_through_a_frame;
use v_frame::pixel::Pixel;
use v_frame::replay::Side::{Back, Front};
use v_frame::replay::{VisibleCall, replay};
use v_frame::sequence::Sequence;

/// Runs the case with this name, in this module or a later one. Returns `None` if an allocation of its preparation fails.
pub fn seen(rt: &HostRuntime, name: &str) -> Option<()> {
    match name {
        "bytes_go_through_a_frame" => bytes_with_a_stride(rt)?,
        "replay_of_two_row_writes" => two_row_writes(rt)?,
        "replay_of_reads_and_a_copy" => reads_and_a_copy(rt)?,
        _ => prepared::seen(rt, name)?,
    }
    Some(())
}

/// Prints the answers of calls, and whether all were made.
pub fn show_replay<T: Pixel>(rt: &HostRuntime, frame: &mut Frame<T>, calls: &[VisibleCall<T>]) {
    let (answers, is_whole) = match replay(rt.alloc(), frame, calls) {
        Ok(answers) => (answers.into(), true),
        Err(stopped) => (stopped.done, false),
    };
    for answer in answers.as_slice() {
        show(rt, answer);
    }
    show(rt, &is_whole);
}

/// Runs a law on bytes with a stride.
fn bytes_with_a_stride(rt: &HostRuntime) -> Option<()> {
    let source = Vec::from_slice(rt.alloc(), &[2, 1, 4, 3, 99, 6, 5, 8, 7, 99]).ok()?;
    let sides = Vec::from_slice(rt.alloc(), &[Back, Front, Front]).ok()?;
    let builder = FrameBuilder::new(2, 2, Monochrome, 10).luma_padding_left(1);
    show(
        rt,
        &bytes_go_through_a_frame::<u16>(rt.alloc(), builder, source, 5, sides),
    );
    Some(())
}

/// Writes two rows of a blank plane. If an allocation after the first write fails, that write has an answer.
fn two_row_writes(rt: &HostRuntime) -> Option<()> {
    let builder = FrameBuilder::new(2, 2, Monochrome, 8);
    let mut frame = builder.build::<u8>(rt.alloc()).ok()?;
    let calls = [
        row_mut(
            0,
            Sequence::from_slice(rt.alloc(), &[Some(1), Some(2)]).ok()?,
        ),
        row_mut(
            1,
            Sequence::from_slice(rt.alloc(), &[Some(3), Some(4)]).ok()?,
        ),
    ];
    show_replay(rt, &mut frame, &calls);
    show(rt, &frame.y_plane.data());
    Some(())
}

/// Returns a call that writes a row.
fn row_mut(y: usize, writes: Sequence<Option<u8>>) -> VisibleCall<u8> {
    VisibleCall::RowMut {
        plane: 0,
        y,
        writes,
    }
}

/// Reads a row and the last row, copies pixels into the plane, reads the last pixel, and reads both rows from the last one on.
fn reads_and_a_copy(rt: &HostRuntime) -> Option<()> {
    let builder = FrameBuilder::new(3, 2, Monochrome, 8);
    let mut frame = builder.build::<u8>(rt.alloc()).ok()?;
    frame.y_plane.copy_from_slice(&[1, 2, 3, 4, 5, 6]).ok()?;
    let calls = [
        VisibleCall::Row { plane: 0, y: 0 },
        VisibleCall::Rows {
            plane: 0,
            draws: Sequence::from_slice(rt.alloc(), &[Back]).ok()?,
        },
        VisibleCall::CopyFromSlice {
            plane: 0,
            source: Sequence::from_slice(rt.alloc(), &[9, 8, 7, 6, 5, 4]).ok()?,
        },
        VisibleCall::Pixels {
            plane: 0,
            draws: Sequence::from_slice(rt.alloc(), &[Back]).ok()?,
        },
        VisibleCall::Rows {
            plane: 0,
            draws: Sequence::from_slice(rt.alloc(), &[Back, Back]).ok()?,
        },
    ];
    show_replay(rt, &mut frame, &calls);
    show(rt, &frame.y_plane.data());
    Some(())
}

//! Cases on a frame of three planes. Each plane has a border of numbered entries.

use crate::calls::calls;
use crate::replays::show_replay;
use crate::show::{fill, show, show_made, show_text};
use v_frame::chroma::ChromaSubsampling::Yuv444;
use v_frame::frame::{Frame, FrameBuilder};
use v_frame::laws;
use v_frame::plane::PlaneGeometry;
use v_frame::replay::Side;
use v_frame::replay::Side::{Back, Front};
use v_frame_planar::{Counted, read_frame};

/// The entries of a plane of 3 by 2 pixels, with one border column on the left, two on the right, and one border row above.
/// Each border entry has a different number.
type Buffer = [u16; 18];

/// The entries of the planes of the frame.
static PREPARED: [Buffer; 3] = [
    [
        100, 101, 102, 103, 104, 105, 106, 1, 2, 3, 110, 111, 112, 4, 5, 6, 116, 117,
    ],
    [
        200, 201, 202, 203, 204, 205, 206, 0, 0, 0, 210, 211, 212, 0, 0, 0, 216, 217,
    ],
    [
        300, 301, 302, 303, 304, 305, 306, 0, 0, 0, 310, 311, 312, 0, 0, 0, 316, 317,
    ],
];

/// The line of a frame, the bytes 1 to 36, and one byte after them.
static FRAME: [u8; 43] = [
    70, 82, 65, 77, 69, 10, 1, 2, 3, 4, 5, 6, 7, 8, 9, 10, 11, 12, 13, 14, 15, 16, 17, 18, 19, 20,
    21, 22, 23, 24, 25, 26, 27, 28, 29, 30, 31, 32, 33, 34, 35, 36, 37,
];

/// The calls of an iterator: the last item, the first item, and the items after it.
static SIDES: [Side; 3] = [Back, Front, Front];

/// Runs the case with this name, in this module or a later one. Returns `None` if an allocation of its preparation fails.
pub fn seen(rt: &HostRuntime, name: &str) -> Option<()> {
    let builder = FrameBuilder::new(3, 2, Yuv444, 16)
        .luma_padding_left(1)
        .luma_padding_right(2)
        .luma_padding_top(1);
    let mut frame = builder.build::<u16>(rt.alloc()).ok()?;
    for (index, buffer) in PREPARED.iter().enumerate() {
        if let Some(plane) = frame.plane_mut(index) {
            fill(plane.data_mut(), buffer);
        }
    }
    seen_of(rt, name, &mut frame)?;
    show_state(rt, &frame);
    Some(())
}

/// Runs a case on this frame.
fn seen_of(rt: &HostRuntime, name: &str, frame: &mut Frame<u16>) -> Option<()> {
    let alloc = rt.alloc();
    match name {
        "clone_of_a_plane" => show_made(rt, frame.y_plane.clone(alloc)),
        "clone_of_a_frame" => match frame.clone(alloc) {
            Ok(copy) => show_state(rt, &copy),
            Err(error) => show(rt, &error),
        },
        "read_frame" => {
            let mut reader = Counted::new(&FRAME[6..]);
            let read = read_frame(alloc, &mut reader, frame);
            show(rt, &(read, reader.get_ref().len()));
        }
        "read_frame_of_a_stream" => {
            let mut reader = Counted::new(FRAME.as_slice());
            let read = v_frame_y4m::read_frame(alloc, &mut reader, frame);
            show(rt, &(read, reader.inner().len()));
        }
        "replay" => show_replay(rt, frame, &calls(alloc)?),
        "same_tables_same_answers" => same_tables_same_answers(rt, frame)?,
        _ => seen_of_laws(rt, name, frame),
    }
    Some(())
}

/// Runs a law on the luma plane of this frame.
fn seen_of_laws(rt: &HostRuntime, name: &str, frame: &mut Frame<u16>) {
    let alloc = rt.alloc();
    let plane = &mut frame.y_plane;
    match name {
        "rows_are_drawn_once" => show(rt, &laws::rows_are_drawn_once(alloc, plane, &SIDES)),
        "pixels_are_drawn_once" => show(rt, &laws::pixels_are_drawn_once(alloc, plane, &SIDES)),
        "bytes_are_drawn_once" => show(rt, &laws::bytes_are_drawn_once(alloc, plane, &SIDES)),
        "lent_rows_are_drawn_once" => {
            show(rt, &laws::lent_rows_are_drawn_once(alloc, plane, &SIDES));
        }
        "lent_pixels_are_drawn_once" => {
            show(rt, &laws::lent_pixels_are_drawn_once(alloc, plane, &SIDES));
        }
        _ => show_text(rt, "no case has this name"),
    }
}

/// Runs a list of calls on two frames that show the same picture. If it is interrupted, each frame has the changes of the calls
/// that were made, and the second frame is unchanged if the first one did not finish.
fn same_tables_same_answers(rt: &HostRuntime, frame: &mut Frame<u16>) -> Option<()> {
    let calls = calls(rt.alloc())?;
    match frame.clone(rt.alloc()) {
        Ok(mut other) => {
            let answers = laws::same_tables_same_answers(rt.alloc(), frame, &mut other, &calls);
            show(rt, &answers);
            show_state(rt, &other);
            Some(())
        }
        Err(_) => None,
    }
}

/// Prints the entries of the planes of a frame, and whether it has its format.
fn show_state(rt: &HostRuntime, frame: &Frame<u16>) {
    let geometry = PlaneGeometry::new(3, 2, 1, 2, 1, 0, 1, 1);
    let mut is_right = frame.subsampling == Yuv444 && frame.bit_depth.get() == 16;
    for index in 0..3 {
        if let Some(plane) = frame.plane(index) {
            is_right = is_right && Some(plane.geometry()) == geometry;
            let _ = print!(rt; "{:?} ", plane.data());
        }
    }
    show(rt, &is_right);
}

//! Calls of replays as plain data, and checks of the results and the effects of replays.

use crate::tests::support::buffers::must_show_rows;
use crate::tests::support::checks::Test;
use crate::tests::support::frames::{Layout, luma, with_buffer};
use crate::tests::support::texts::must_show;
use v_frame::frame::Frame;
use v_frame::pixel::Pixel;
use v_frame::replay::{PixelDraw, RowDraw, Side, VisibleCall, replay};
use v_frame::sequence::Sequence;

/// A call of a replay. The first field is the plane, and the others are the arguments of the call.
#[derive(Drop)]
pub enum Call<'a, T> {
    /// The width.
    Width(usize),
    /// The height.
    Height(usize),
    /// The row y.
    Row(usize, usize),
    /// The row y, and the pixels to write into it.
    RowMut(usize, usize, &'a [Option<T>]),
    /// The pixel at x and y.
    Pixel(usize, usize, usize),
    /// The pixel at x and y, and its new value.
    PixelMut(usize, usize, usize, T),
    /// A copy of pixels.
    Copy(usize, &'a [T]),
    /// A copy of bytes with a stride.
    CopyStrided(usize, &'a [u8], usize),
    /// Rows from these sides.
    Rows(usize, &'a [Side]),
    /// Pixels from these sides.
    Pixels(usize, &'a [Side]),
    /// Bytes from these sides.
    Bytes(usize, &'a [Side]),
    /// Rows from these sides, and the pixels to write into each.
    RowsMut(usize, &'a [(Side, &'a [Option<T>])]),
    /// Pixels from these sides, and the new value of each.
    PixelsMut(usize, &'a [(Side, Option<T>)]),
}

/// Returns a list of these items.
fn list<T: Copy>(rt: &impl Test, items: &[T]) -> Sequence<T> {
    Sequence::from_slice(rt.alloc(), items).expect(rt, "memory")
}

/// Returns draws of rows, with the pixels to write into each.
fn row_draws<T: Copy>(rt: &impl Test, draws: &[(Side, &[Option<T>])]) -> Sequence<RowDraw<T>> {
    let mut rows = Vec::new(rt.alloc());
    for (side, writes) in draws {
        let (side, writes) = (*side, list(rt, *writes));
        rows.push(RowDraw { side, writes }).expect(rt, "memory");
    }
    rows.into()
}

/// Returns draws of pixels, with the new value of each.
fn pixel_draws<T: Copy>(rt: &impl Test, draws: &[(Side, Option<T>)]) -> Sequence<PixelDraw<T>> {
    let mut pixels = Vec::new(rt.alloc());
    for (side, value) in draws {
        let (side, value) = (*side, *value);
        pixels.push(PixelDraw { side, value }).expect(rt, "memory");
    }
    pixels.into()
}

/// Returns a call in the form that a replay takes.
fn visible<T: Copy>(rt: &impl Test, call: &Call<'_, T>) -> VisibleCall<T> {
    match *call {
        Call::Width(plane) => VisibleCall::Width { plane },
        Call::Height(plane) => VisibleCall::Height { plane },
        Call::Row(plane, y) => VisibleCall::Row { plane, y },
        Call::RowMut(plane, y, writes) => VisibleCall::RowMut {
            plane,
            y,
            writes: list(rt, writes),
        },
        Call::Pixel(plane, x, y) => VisibleCall::Pixel { plane, x, y },
        Call::PixelMut(plane, x, y, value) => VisibleCall::PixelMut { plane, x, y, value },
        Call::Copy(plane, pixels) => VisibleCall::CopyFromSlice {
            plane,
            source: list(rt, pixels),
        },
        Call::CopyStrided(plane, bytes, stride) => VisibleCall::CopyFromU8SliceWithStride {
            plane,
            source: list(rt, bytes),
            stride,
        },
        Call::Rows(plane, sides) => VisibleCall::Rows {
            plane,
            draws: list(rt, sides),
        },
        Call::Pixels(plane, sides) => VisibleCall::Pixels {
            plane,
            draws: list(rt, sides),
        },
        Call::Bytes(plane, sides) => VisibleCall::ByteData {
            plane,
            draws: list(rt, sides),
        },
        Call::RowsMut(plane, draws) => VisibleCall::RowsMut {
            plane,
            draws: row_draws(rt, draws),
        },
        Call::PixelsMut(plane, draws) => VisibleCall::PixelsMut {
            plane,
            draws: pixel_draws(rt, draws),
        },
    }
}

/// Fails the test unless the calls on a frame have these results.
pub fn check_calls<T: Pixel>(
    rt: &impl Test,
    frame: &mut Frame<T>,
    calls: &[Call<'_, T>],
    wanted: &str,
) {
    let mut list = Vec::new(rt.alloc());
    for call in calls {
        list.push(visible(rt, call)).expect(rt, "memory");
    }
    let answers = replay(rt.alloc(), frame, list.as_slice()).ok();
    must_show(rt, &answers.expect(rt, "memory"), wanted);
}

/// Fails the test unless the calls on a luma plane with a buffer have these results and leave the expected buffer.
pub fn check_replay<T: Pixel>(
    rt: &impl Test,
    layout: Layout,
    before: &[T],
    calls: &[Call<'_, T>],
    wanted: &str,
    after: &[T],
) {
    let mut frame = with_buffer(rt, layout, before);
    check_calls(rt, &mut frame, calls, wanted);
    must_show_rows(rt, &luma(frame), layout, after);
}

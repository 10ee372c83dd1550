//! Replays: lists of calls on the visible pixels of a frame.
//!
//! Not part of `v_frame` 0.7.0. The contract of [`replay`](replay()) states the results and the effects of every list of calls
//! by plain tables of rows, which have no padding and no border.
//!
//! The contract is proved in three steps: a call on one plane is a call on its table, a call on a frame finds its plane and is
//! then a call on the tables of the frame, and a list of calls follows by induction. Each kind of call is in one of the files
//! in this folder. All of them use only the public calls of planes and frames.
ghost use Rattle.std.specs.Prelude.{◌≡◌, ℕ, None, Some, IfOk, IfErr, OnOk, OnErr};
ghost use Rattle.v_frame.specs.Frame.{tables_of, plane_at, KeepsBorders};
ghost use Rattle.v_frame.specs.PlaneReply.{RepliesOn};
ghost use Rattle.v_frame.specs.Replay.{written_plane, WritesPlane, reply_to, answers_to, tables_after, StoppedAfter};

mod answer;
mod call;
mod draw;
pub(crate) mod pixel_writes;
mod reads;
pub(crate) mod row_writes;
pub(crate) mod walk;

use crate::frame::Frame;
use crate::pixel::Pixel;
use crate::plane::Plane;
pub use answer::{Answer, ReplayStopped};
pub use call::VisibleCall;
pub use draw::{Drawn, PixelDraw, RowDraw, Side};
use pixel_writes::{replay_pixel_mut, replay_pixels_mut};
use reads::{bytes_walked, pixel_shown, pixels_walked, row_shown, rows_walked};
use row_writes::{replay_row_mut, replay_rows_mut};
use std::alloc::{AllocError, Global};

/// Executes `calls` in order, and returns the result of each.
///
/// If the frame has no plane with the index that a call names, the result is [`Answer::NoPlane`] and nothing changes. An empty
/// list of calls allocates no memory. Not part of `v_frame` 0.7.0.
///
/// # Errors
///
/// [`ReplayStopped`] if memory for a result cannot be allocated. The error holds the results of the calls that were executed.
/// No later call has written anything.
pub fn replay<T: Pixel>(
    alloc: Global,
    frame: &mut Frame<T>,
    calls: &[VisibleCall<T>],
) -> Result<Vec<Answer<T>>, ReplayStopped<T>>
    ensures answers { IfOk result (λ answers.
        answers.items ≡ answers_to T.form calls.now (tables_of frame.old)) }
    ensures tables { OnOk result
        (tables_of frame.new ≡ tables_after T.form calls.now (tables_of frame.old)) }
    ensures stopped { IfErr result (λ stopped.
        StoppedAfter T.form calls.now (tables_of frame.old) stopped.done (tables_of frame.new)) }
    ensures border { KeepsBorders frame.old frame.new }
    ensures unwritten { (index : ℕ) → ¬ WritesPlane calls.now index
        → plane_at frame.new index ≡ plane_at frame.old index }
{
    let mut done = match Vec::with_capacity(alloc, calls.len()) {
        Ok(done) => done,
        Err(_) => return Err(ReplayStopped {
            done: Vec::new(alloc).into(),
        }),
    };
    for call in calls {
        match replay_call(alloc, frame, call) {
            Ok(answer) => done.push(answer).unwrap(),
            Err(_) => return Err(ReplayStopped { done: done.into() }),
        }
    }
    Ok(done)
}

/// Executes one call. The memory for its result is allocated before the call writes.
fn replay_call<T: Pixel>(
    alloc: Global,
    frame: &mut Frame<T>,
    call: &VisibleCall<T>,
) -> Result<Answer<T>, AllocError>
    ensures answer { IfOk result (λ answer.
        answer ≡ (reply_to T.form call.now (tables_of frame.old)).answer) }
    ensures tables { OnOk result
        (tables_of frame.new ≡ (reply_to T.form call.now (tables_of frame.old)).tables) }
    ensures err { OnErr result (frame.new ≡ frame.old) }
    ensures border { KeepsBorders frame.old frame.new }
    ensures unwritten { (index : ℕ) → ¬ (written_plane call.now ≡ Some index)
        → plane_at frame.new index ≡ plane_at frame.old index }
{
    match frame.plane_mut(call.plane()) {
        Some(plane) => replay_on_plane(alloc, plane, call),
        None => Ok(Answer::NoPlane),
    }
}

/// Executes one call on the plane that it names.
fn replay_on_plane<T: Pixel>(
    alloc: Global,
    plane: &mut Plane<T>,
    call: &VisibleCall<T>,
) -> Result<Answer<T>, AllocError>
    ensures { RepliesOn T.form call.now plane.old plane.new result }
{
    match call {
        VisibleCall::Width { .. } => Ok(Answer::Number(plane.width())),
        VisibleCall::Height { .. } => Ok(Answer::Number(plane.height())),
        VisibleCall::Row { y, .. } => row_shown(alloc, plane, *y),
        VisibleCall::RowMut { y, writes, .. } => replay_row_mut(
            alloc,
            plane,
            *y,
            writes.as_slice(),
        ),
        VisibleCall::Pixel { x, y, .. } => Ok(pixel_shown(plane, *x, *y)),
        VisibleCall::PixelMut { x, y, value, .. } => Ok(replay_pixel_mut(plane, *x, *y, *value)),
        VisibleCall::CopyFromSlice { source, .. } => {
            Ok(Answer::Copied(plane.copy_from_slice(source.as_slice())))
        }
        VisibleCall::CopyFromU8Slice { source, .. } => {
            Ok(Answer::Copied(plane.copy_from_u8_slice(source.as_slice())))
        }
        VisibleCall::CopyFromU8SliceWithStride { source, stride, .. } => Ok(Answer::Copied(
            plane.copy_from_u8_slice_with_stride(source.as_slice(), *stride),
        )),
        VisibleCall::Rows { draws, .. } => rows_walked(alloc, plane, draws.as_slice()),
        VisibleCall::Pixels { draws, .. } => pixels_walked(alloc, plane, draws.as_slice()),
        VisibleCall::ByteData { draws, .. } => bytes_walked(alloc, plane, draws.as_slice()),
        VisibleCall::RowsMut { draws, .. } => replay_rows_mut(alloc, plane, draws.as_slice()),
        VisibleCall::PixelsMut { draws, .. } => replay_pixels_mut(alloc, plane, draws.as_slice()),
    }
}

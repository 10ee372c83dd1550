//! Laws of bytes that are copied into planes and read back.
ghost use Rattle.std.specs.Prelude.{◌≡◌, ◌*◌, ◌≤◌, [], ◌∷◌, length, slice_get, Some, Ok, Err, OnOk, IfOk, IsOkUnless, MatchOption};
ghost use Rattle.v_frame.specs.Build.{luma_geometry, refusal_of};
ghost use Rattle.v_frame_raster.specs.Raster.{filled, table_of, border_and_geometry};
ghost use Rattle.v_frame.specs.Frame.{tables_of};
ghost use Rattle.v_frame.specs.Replay.{answers_to};
ghost use Rattle.v_frame.specs.Walk.{draws_answer, AreAllGiven};
ghost use Rattle.v_frame.specs.declared.replay.call.VisibleCall.TheVariants.{CopyFromU8SliceWithStride, ByteData};
ghost use Rattle.v_frame.specs.declared.replay.answer.Answer.TheVariants.{Copied, BytesWalked};
ghost use Rattle.v_frame_raster.specs.Table.{width_of, height_of, row_major};
ghost use Rattle.v_frame_plane.specs.Copy.{packed_copy, strided_copy, packed_byte_copy};
ghost use Rattle.v_frame_raster.specs.StridedRows.{piece_fronts};
ghost use Rattle.v_frame_raster.specs.Pixel.{byte_list};

use super::replayed;
use crate::frame::{Frame, FrameBuilder, FrameError};
use crate::pixel::Pixel;
use crate::plane::{CopyError, Plane};
use crate::replay::{Answer, Side, VisibleCall};
use std::alloc::{AllocError, Global};

/// Builds a frame, copies `source` into its luma plane, and reads the bytes of the luma plane from the given sides.
///
/// `stride` is the distance in bytes between the starts of two rows of `source`. If `source` has a whole stride for each row of
/// the frame, the copy succeeds, and the bytes that are read are the rows of `source` without the bytes between them. If there
/// are at least as many `sides` as bytes, all bytes are read: those from the front in order, and those from the back in reverse
/// order.
///
/// The errors are those of [`FrameBuilder::build`], and [`FrameError::OutOfMemory`] if memory cannot be allocated.
pub fn bytes_go_through_a_frame<T: Pixel>(
    alloc: Global,
    builder: FrameBuilder,
    source: Vec<u8>,
    stride: usize,
    sides: Vec<Side>,
) -> Result<Vec<Answer<T>>, FrameError>
    ensures refused { MatchOption (refusal_of T.BYTES builder)
        (IsOkUnless result FrameError.OutOfMemory) (λ e. result ≡ Err e) }
    ensures copied { let blank = table_of (filled T.ZERO (luma_geometry builder)) in
        IfOk result (λ answers. slice_get answers.items 0
        ≡ Some (Copied (strided_copy T.form blank source.items stride).answer)) }
    ensures answers { let row = builder.width * T.form.size in
        let bytes = row_major (piece_fronts row stride builder.height source.items) in
        row ≤ stride → length source.items ≡ stride * builder.height → IfOk result (λ answers.
        answers.items ≡ Copied (Ok tt)
        ∷ BytesWalked (length bytes) (draws_answer bytes sides.items) ∷ []) }
    ensures all { let row = builder.width * T.form.size in
        let bytes = row_major (piece_fronts row stride builder.height source.items) in
        length bytes ≤ length sides.items
        → AreAllGiven bytes sides.items (draws_answer bytes sides.items) }
{
    let mut frame = builder.build::<T>(alloc)?;
    copied_and_walked(alloc, &mut frame, source, stride, sides).map_err(|_| FrameError::OutOfMemory)
}

/// Copies bytes with a stride into the luma plane of a frame, reads the bytes of the luma plane from the given sides, and
/// returns the results of both calls.
fn copied_and_walked<T: Pixel>(
    alloc: Global,
    frame: &mut Frame<T>,
    source: Vec<u8>,
    stride: usize,
    sides: Vec<Side>,
) -> Result<Vec<Answer<T>>, AllocError>
    ensures { IfOk result (λ answers. answers.items ≡ answers_to T.form
        (CopyFromU8SliceWithStride 0 source.items stride ∷ ByteData 0 sides.items ∷ [])
        (tables_of frame.old)) }
{
    let calls = copy_and_walk(alloc, source, stride, sides)?;
    replayed(alloc, frame, calls.as_slice())
}

/// Returns the two calls: a copy of bytes with a stride into the luma plane, and a read of its bytes from the given sides.
fn copy_and_walk<T: Pixel>(
    alloc: Global,
    source: Vec<u8>,
    stride: usize,
    sides: Vec<Side>,
) -> Result<Vec<VisibleCall<T>>, AllocError>
    ensures { IfOk result (λ calls. calls.items
        ≡ CopyFromU8SliceWithStride 0 source.items stride ∷ ByteData 0 sides.items ∷ []) }
{
    let mut calls = Vec::new(alloc);
    calls.push(VisibleCall::CopyFromU8SliceWithStride {
        plane: 0,
        source: source.into(),
        stride,
    })?;
    calls.push(VisibleCall::ByteData {
        plane: 0,
        draws: sides.into(),
    })?;
    Ok(calls)
}

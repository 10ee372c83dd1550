//! Frames: building them, build errors, and changes to one plane.
ghost use Rattle.std.specs.Prelude.{◌≡◌, ◌≢◌, ◌⊎◌, ℕ, None, Some, Err, IfOk, IsOkUnless, MatchOption, option_map};
ghost use Rattle.v_frame.specs.Prelude.{table_of, packed_copy, chroma_size_of, plane_at, KeepsBorders, refusal_of, FrameError};

use std::alloc::Global;
use v_frame::frame::{Frame, FrameBuilder, FrameError};
use v_frame::laws::built_frame_is_zero;
use v_frame::pixel::Pixel;
use v_frame::plane::CopyError;

/// Copies pixels into the plane with an index, if the frame has this plane. Everything else in the frame is unchanged.
pub fn copy_into_plane<T: Pixel>(
    frame: &mut Frame<T>,
    index: usize,
    source: &[T],
) -> Option<Result<(), CopyError>>
    ensures answer { result ≡ option_map
        (λ plane. (packed_copy (table_of plane) source.now).answer) (plane_at frame.old index) }
    ensures table { option_map table_of (plane_at frame.new index) ≡ option_map
        (λ plane. (packed_copy (table_of plane) source.now).table) (plane_at frame.old index) }
    ensures border { KeepsBorders frame.old frame.new }
    ensures others { (other : ℕ) → other ≢ index
        → plane_at frame.new other ≡ plane_at frame.old other }
{
    match frame.plane_mut(index) {
        Some(plane) => Some(plane.copy_from_slice(source)),
        None => None,
    }
}

/// Returns the reason why a frame cannot be built, or `None` if it can.
pub fn reason_not_to_build<T: Pixel>(alloc: Global, builder: FrameBuilder) -> Option<FrameError>
    ensures told { (e : FrameError) → refusal_of T.BYTES builder ≡ Some e → result ≡ Some e }
    ensures built { refusal_of T.BYTES builder ≡ None
        → (result ≡ None) ⊎ (result ≡ Some FrameError.OutOfMemory) }
{
    builder.build::<T>(alloc).err()
}

/// Builds a frame, and returns the size of its chroma planes, or `None` if the format has no chroma.
pub fn built_chroma_size<T: Pixel>(
    alloc: Global,
    builder: FrameBuilder,
) -> Result<Option<(usize, usize)>, FrameError>
    ensures refused { MatchOption (refusal_of T.BYTES builder)
        (IsOkUnless result FrameError.OutOfMemory) (λ e. result ≡ Err e) }
    ensures size { IfOk result (λ size. size
        ≡ chroma_size_of builder.subsampling builder.width builder.height) }
{
    let frame = built_frame_is_zero::<T>(alloc, builder)?;
    let size = chroma_size(&frame);
    drop(frame);
    Ok(size)
}

/// Returns the visible size of the chroma planes of a frame, or `None` if it has none.
fn chroma_size<T: Pixel>(frame: &Frame<T>) -> Option<(usize, usize)>
    ensures { result ≡ option_map
        (λ plane. (plane.geometry.width, plane.geometry.height)) frame.now.u_plane }
{
    match &frame.u_plane {
        Some(plane) => Some((plane.width(), plane.height())),
        None => None,
    }
}

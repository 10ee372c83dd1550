//! Frames of the size that a header states.
ghost use Rattle.std.specs.Prelude.{◌≡◌, ◌*◌, ◌<◌, ◌≤◌, IfOk, MatchOption, IsOkUnless, SomeIff};
ghost use Rattle.v_frame.specs.Prelude.{tables_of, usize_max};
ghost use Rattle.v_frame_planar.specs.Planar.{plane_byte_count, sizes_of};
ghost use Rattle.v_frame_planar.specs.Video.{chroma_sizes_of, plain_tables, video_refusal_of, video_request, IsBlankVideo};
ghost use Rattle.v_frame_y4m.specs.Color.{depth_of, subsampling_of};
ghost use Rattle.v_frame_y4m.specs.Frames.{frame_byte_count};

use crate::header::StreamHeader;
use std::alloc::Global;
use v_frame::chroma::ChromaSubsampling;
use v_frame::frame::{Frame, FrameError};
use v_frame::pixel::Pixel;
use v_frame_planar::{chroma_size, video_frame};

impl StreamHeader {
    /// Allocates a frame that the frames of the stream can be read into. It has the size, the chroma subsampling and the bit
    /// depth of the stream, and all pixels are zero.
    ///
    /// The pixel type `T` must be `u8` if [`Color::bit_depth`](crate::Color::bit_depth) is 8, and `u16` otherwise. The luma
    /// plane has at least `padding` pixels of padding on each side, rounded up to a multiple of the chroma subsampling ratio. A
    /// `padding` of 0 is enough for reading.
    ///
    /// # Errors
    ///
    /// The errors of [`video_frame`]:
    ///
    /// - [`FrameError::DataTypeMismatch`] if `T` does not match the bit depth.
    /// - [`FrameError::UnsupportedResolution`] if the width or the height is zero, or if the frame is too large for the address
    ///   space.
    /// - [`FrameError::OutOfMemory`] if a memory allocation fails.
    pub fn frame<T: Pixel>(&self, alloc: Global, padding: usize) -> Result<Frame<T>, FrameError>
        ensures refused { MatchOption (video_refusal_of T.BYTES (video_request self.now.width
            self.now.height (subsampling_of self.now.color) (depth_of self.now.color) padding))
            (IsOkUnless result FrameError.OutOfMemory) (λ e. result ≡ Err e) }
        ensures blank { IfOk result (IsBlankVideo T.ZERO (video_request self.now.width
            self.now.height (subsampling_of self.now.color) (depth_of self.now.color) padding)) }
        ensures tables { IfOk result (λ frame. tables_of frame ≡ plain_tables T.ZERO
            self.now.width self.now.height (subsampling_of self.now.color)) }
        ensures sizes { let chroma = chroma_sizes_of (subsampling_of self.now.color)
            self.now.width self.now.height in
            IfOk result (λ frame. sizes_of (tables_of frame)
            ≡ ((self.now.width, self.now.height), (chroma, chroma))) }
    {
        video_frame(
            alloc,
            self.width,
            self.height,
            self.color.subsampling(),
            self.color.bit_depth(),
            padding,
        )
    }

    /// Returns the number of bytes that follow the `FRAME` line of each frame, or `None` if there are more than `usize::MAX`.
    ///
    /// They are the bytes of the planes Y, U and V. A sample has one byte at a bit depth of 8, and two bytes above. The sizes
    /// of the chroma planes are rounded up, so that they cover the luma plane.
    pub fn frame_len(&self) -> Option<usize>
        ensures { let count = frame_byte_count self.now in SomeIff result (count ≤ usize_max) count }
    {
        let pixel = if self.color.bit_depth() == 8 { 1 } else { 2 };
        let luma = plane_len(self.width, self.height, pixel)?;
        let chroma = chroma_len(self.width, self.height, self.color.subsampling(), pixel)?;
        luma.checked_add(chroma.checked_mul(2)?)
    }
}

/// Returns the number of bytes of a chroma plane of a frame of `width` by `height` luma pixels, at `pixel` bytes for each
/// pixel. The number is 0 if the format has no chroma.
fn chroma_len(
    width: usize,
    height: usize,
    subsampling: ChromaSubsampling,
    pixel: usize,
) -> Option<usize>
    requires { 0 < pixel }
    ensures { let count = plane_byte_count pixel (chroma_sizes_of subsampling width height) in
        SomeIff result (count ≤ usize_max) count }
{
    match chroma_size(subsampling, width, height) {
        Some((width, height)) => plane_len(width, height, pixel),
        None => Some(0),
    }
}

/// Returns the number of bytes of a plane, at `pixel` bytes for each pixel.
fn plane_len(width: usize, height: usize, pixel: usize) -> Option<usize>
    requires { 0 < pixel }
    ensures { let count = width * height * pixel in SomeIff result (count ≤ usize_max) count }
{
    width.checked_mul(height)?.checked_mul(pixel)
}

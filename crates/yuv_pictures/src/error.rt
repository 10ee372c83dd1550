//! The reasons why a picture was not written.

use std::alloc::AllocError;
use thiserror::Error;
use v_frame_png::PngError;

/// The reason why a picture was not written.
#[derive(Debug, Drop, Error)]
pub enum PictureError {
    /// The width or the height is above 2^31 - 1, so the picture can't be a PNG file.
    #[error("no PNG of {width} by {height} pixels")]
    TooLarge {
        /// The width in pixels.
        width: usize,
        /// The height in pixels.
        height: usize,
    },
    /// The frame does not have the requested plane.
    #[error("the frame has no such plane")]
    NoPlane,
    /// A chroma plane does not have the size that the format of the frame requires, or the type of pixels does not fit the bit
    /// depth.
    #[error("the planes do not fit the format and the bit depth of the frame")]
    Layout,
    /// The luma planes of the two frames have different sizes, or the frames have different bit depths.
    #[error("the frames have different sizes or bit depths")]
    Unlike,
    /// A write failed ([`PngError::Write`]) or wrote no bytes ([`PngError::WriteZero`]).
    #[error(transparent)]
    Png(PngError),
    /// There is not enough memory.
    #[error("out of memory")]
    OutOfMemory,
}

impl From<AllocError> for PictureError {
    ghost use Rattle.std.specs.Prelude.{◌≡◌};
    ghost use Rattle.yuv_pictures.specs.declared.error.PictureError.TheVariants.{OutOfMemory};

    ghost from_gives = { λ refused error. error ≡ OutOfMemory };

    fn from(_refused: AllocError) -> Self {
        PictureError::OutOfMemory
    }
}

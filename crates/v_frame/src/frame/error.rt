//! The reasons why a frame cannot be built.

use std::alloc::AllocError;
use thiserror::Error;

/// The reason why [`FrameBuilder::build`](super::FrameBuilder::build) failed.
///
/// Ports `FrameError` of `v_frame` 0.7.0, which has no variant [`OutOfMemory`](FrameError::OutOfMemory).
#[derive(Debug, PartialEq, Eq, Hash, Drop, Error)]
pub enum FrameError {
    /// The bit depth is below 8 or above 16.
    #[error("only 8-16 bit frame data is supported, tried to create {found} bit frame")]
    UnsupportedBitDepth {
        /// The requested bit depth.
        found: u8,
    },
    /// The bit depth is 8 and a pixel has two bytes, or the bit depth is above 8 and a pixel has one byte.
    #[error("bit depth did not match requested data type")]
    DataTypeMismatch,
    /// The width or the height is zero, a luma size or padding is not divisible by the subsampling ratio of the format, or a
    /// plane would have more than 2^62 - 1 pixels with its border.
    #[error("selected chroma subsampling does not support odd resolutions")]
    UnsupportedResolution,
    /// The memory for a plane could not be allocated.
    #[error("out of memory")]
    OutOfMemory,
}

impl From<AllocError> for FrameError {
    ghost use Rattle.std.specs.Prelude.{◌≡◌};
    ghost use Rattle.v_frame.specs.declared.frame.error.FrameError.TheVariants.{OutOfMemory};

    ghost from_gives = { λ refused error. error ≡ OutOfMemory };

    fn from(_refused: AllocError) -> Self {
        FrameError::OutOfMemory
    }
}

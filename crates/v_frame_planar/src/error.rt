//! Errors of reading and writing the planar bytes of frames.

use crate::counted::WriteFault;
use std::alloc::AllocError;
use thiserror::Error;

/// Why [`read_frame`](crate::read_frame) or [`write_frame`](crate::write_frame) failed.
#[derive(Debug, PartialEq, Eq, Drop, Error)]
pub enum PlanarError {
    /// The reader reached its end inside a frame.
    #[error("truncated frame, expected {expected} bytes, found {found}")]
    Truncated {
        /// The number of bytes of a frame.
        expected: usize,
        /// The number of bytes that were read.
        found: usize,
    },
    /// The frame has more than `isize::MAX` bytes.
    #[error("frame too large")]
    TooLarge,
    /// A read failed.
    #[error("read failed")]
    Read,
    /// A write failed.
    #[error("write failed")]
    Write,
    /// A write accepted none of the bytes.
    #[error("write took nothing")]
    WriteZero,
    /// A memory allocation failed.
    #[error("out of memory")]
    OutOfMemory,
}

impl From<AllocError> for PlanarError {
    ghost use Rattle.std.specs.Prelude.{◌≡◌};
    ghost use Rattle.v_frame_planar.specs.declared.error.PlanarError.TheVariants.{OutOfMemory};

    ghost from_gives = { λ refused error. error ≡ OutOfMemory };

    fn from(_refused: AllocError) -> Self {
        PlanarError::OutOfMemory
    }
}

impl From<WriteFault> for PlanarError {
    ghost use Rattle.std.specs.Prelude.{◌≡◌};
    ghost use Rattle.v_frame_planar.specs.Planar.{error_of};

    ghost from_gives = { λ fault error. error ≡ error_of fault };

    fn from(fault: WriteFault) -> Self {
        match fault {
            WriteFault::Failed => PlanarError::Write,
            WriteFault::TookNothing => PlanarError::WriteZero,
        }
    }
}

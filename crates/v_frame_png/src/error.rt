//! Errors of writing a picture.

use std::alloc::AllocError;
use std::io;
use thiserror::Error;
use v_frame_bytes::SendError;

/// Why a call of [`PngWriter`](crate::PngWriter) failed.
#[derive(Debug, Drop, Error)]
pub enum PngError {
    /// The width or the height is 0 or above 2^31 - 1, which PNG does not allow.
    #[error("no PNG of {width} by {height} pixels")]
    Size {
        /// The requested width in pixels.
        width: u32,
        /// The requested height in pixels.
        height: u32,
    },
    /// Samples of 16 bits were given for a picture with 8 bits per sample.
    #[error("the picture has 8 bits a sample")]
    BitDepth,
    /// The row does not have the number of bytes that the picture requires.
    #[error("a row has {expected} bytes, and not {found}")]
    RowLength {
        /// The number of bytes of a row of the picture.
        expected: usize,
        /// The number of bytes of the row that was given.
        found: usize,
    },
    /// The picture has fewer rows left than were given.
    #[error("the picture has not so many rows left")]
    NoRowLeft,
    /// The picture does not have all its rows yet.
    #[error("{count} rows are missing")]
    RowsMissing {
        /// The number of rows that are missing.
        count: u32,
    },
    /// The picture was finished, or an earlier write failed.
    #[error("the picture is closed")]
    Closed,
    /// A write failed.
    #[error("write failed: {0}")]
    Write(#[source] io::Error),
    /// A write accepted none of the bytes.
    #[error("write took nothing")]
    WriteZero,
    /// A memory allocation failed.
    #[error("out of memory")]
    OutOfMemory,
}

impl From<AllocError> for PngError {
    ghost use Rattle.std.specs.Prelude.{◌≡◌};
    ghost use Rattle.v_frame_png.specs.declared.error.PngError.TheVariants.{OutOfMemory};

    ghost from_gives = { λ refused error. error ≡ OutOfMemory };

    fn from(_refused: AllocError) -> Self {
        PngError::OutOfMemory
    }
}

impl From<SendError> for PngError {
    ghost use Rattle.std.specs.Prelude.{◌≡◌};
    ghost use Rattle.v_frame_png.specs.Sending.{error_of};

    ghost from_gives = { λ fault error. error ≡ error_of fault };

    fn from(fault: SendError) -> Self {
        match fault {
            SendError::Write(error) => PngError::Write(error),
            SendError::WriteZero => PngError::WriteZero,
        }
    }
}

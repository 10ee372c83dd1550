//! The reasons for which the program stops.

use std::alloc::AllocError;
use std::io;
use thiserror::Error;
use v_frame::frame::FrameError;
use v_frame::plane::CopyError;

/// An error of the arguments, of a call of the library, of the clock or of printing.
#[derive(Debug, Drop, Error)]
pub enum BenchError {
    #[error("usage: bench WIDTH HEIGHT PADDING SEED REPETITIONS")]
    Usage,
    #[error("no frame of this size: {0}")]
    Frame(#[from] FrameError),
    #[error("not copied: {0}")]
    Copy(#[from] CopyError),
    #[error("out of memory")]
    OutOfMemory,
    #[error(transparent)]
    Io(#[from] io::Error),
}

impl From<AllocError> for BenchError {
    fn from(_refused: AllocError) -> Self {
        BenchError::OutOfMemory
    }
}

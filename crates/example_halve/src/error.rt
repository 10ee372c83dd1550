//! The errors of the program.

use std::io;
use thiserror::Error;
use v_frame::frame::FrameError;
use v_frame_planar::PlanarError;

/// An error in the arguments, in building the frame, in reading or writing a frame, or in opening a file.
#[derive(Debug, Drop, Error)]
pub enum HalveError {
    #[error("usage: example_halve WIDTH HEIGHT FILE..")]
    Usage,
    #[error("no frame of this size: {0}")]
    Frame(#[from] FrameError),
    #[error(transparent)]
    Planar(#[from] PlanarError),
    #[error("cannot open: {0}")]
    Open(#[from] io::Error),
}

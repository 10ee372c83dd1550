//! Errors of reading and writing YUV4MPEG2 streams.

use crate::text::Text;
use std::alloc::AllocError;
use thiserror::Error;
use v_frame_planar::{PlanarError, WriteFault};

/// Why a header line was rejected.
#[derive(Debug, PartialEq, Eq, Drop, Error)]
pub enum HeaderError {
    /// The line does not begin with `YUV4MPEG2`.
    #[error("not a YUV4MPEG2 stream")]
    NotAStream,
    /// A required parameter, `W` or `H`, is missing.
    #[error("parameter {0} is missing")]
    Missing(char),
    /// A parameter that may occur only once is repeated.
    #[error("parameter {0} is repeated")]
    Duplicate(char),
    /// A parameter has an unknown letter, or its value is not valid for its letter. The text is the whole parameter.
    #[error("malformed parameter `{0}`")]
    Malformed(Text),
    /// The width or the height is 0. The letter is `W` or `H`.
    #[error("parameter {0} is 0")]
    ZeroSize(char),
    /// The width or the height is above `usize::MAX`. The text is the whole parameter.
    #[error("size too large `{0}`")]
    SizeTooLarge(Text),
    /// The color is not supported. The text is the letter `C` and what follows it.
    #[error("unknown color `{0}`")]
    UnknownColor(Text),
    /// A memory allocation failed.
    #[error("out of memory")]
    OutOfMemory,
}

impl From<AllocError> for HeaderError {
    ghost use Rattle.std.specs.Prelude.{◌≡◌};
    ghost use Rattle.v_frame_y4m.specs.declared.error.HeaderError.TheVariants.{OutOfMemory};

    ghost from_gives = { λ refused error. error ≡ OutOfMemory };

    fn from(_refused: AllocError) -> Self {
        HeaderError::OutOfMemory
    }
}

/// Why a call on a YUV4MPEG2 stream failed.
#[derive(Debug, PartialEq, Eq, Drop, Error)]
pub enum Y4mError {
    /// The header line was rejected.
    #[error(transparent)]
    Header(HeaderError),
    /// The first 1025 bytes of a line contain no line feed.
    #[error("line longer than 1024 bytes")]
    LineTooLong,
    /// The stream ended inside a line.
    #[error("the stream ends inside a line")]
    UnfinishedLine,
    /// A `FRAME` line is required, but the stream has another line.
    #[error("no FRAME where a frame is due")]
    NoFrame,
    /// The bytes of a frame were not read or written whole: the stream ended, a read or a write failed, or a memory allocation
    /// failed.
    #[error(transparent)]
    Planar(PlanarError),
}

impl From<HeaderError> for Y4mError {
    ghost use Rattle.std.specs.Prelude.{◌≡◌};
    ghost use Rattle.v_frame_y4m.specs.declared.error.Y4mError.TheVariants.{Header};

    ghost from_gives = { λ refusal error. error ≡ Header refusal };

    fn from(refusal: HeaderError) -> Self {
        Y4mError::Header(refusal)
    }
}

impl From<PlanarError> for Y4mError {
    ghost use Rattle.std.specs.Prelude.{◌≡◌};
    ghost use Rattle.v_frame_y4m.specs.declared.error.Y4mError.TheVariants.{Planar};

    ghost from_gives = { λ fault error. error ≡ Planar fault };

    fn from(fault: PlanarError) -> Self {
        Y4mError::Planar(fault)
    }
}

impl From<WriteFault> for Y4mError {
    ghost use Rattle.std.specs.Prelude.{◌≡◌};
    ghost use Rattle.v_frame_planar.specs.Planar.{error_of};
    ghost use Rattle.v_frame_y4m.specs.declared.error.Y4mError.TheVariants.{Planar};

    ghost from_gives = { λ fault error. error ≡ Planar (error_of fault) };

    fn from(fault: WriteFault) -> Self {
        Y4mError::Planar(fault.into())
    }
}

impl From<AllocError> for Y4mError {
    ghost use Rattle.std.specs.Prelude.{◌≡◌};
    ghost use Rattle.v_frame_planar.specs.declared.error.PlanarError.TheVariants.{OutOfMemory};
    ghost use Rattle.v_frame_y4m.specs.declared.error.Y4mError.TheVariants.{Planar};

    ghost from_gives = { λ refused error. error ≡ Planar OutOfMemory };

    fn from(_refused: AllocError) -> Self {
        Y4mError::Planar(PlanarError::OutOfMemory)
    }
}

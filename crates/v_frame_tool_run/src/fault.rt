//! The faults of the program.

use std::alloc::AllocError;
use thiserror::Error;
use v_frame::frame::FrameError;
use v_frame::plane::CopyError;
use v_frame_planar::WriteFault;

/// The reason why [`run`](super::run::run) failed.
#[derive(Debug, PartialEq, Eq, Drop, Error)]
pub enum ToolFault {
    /// The frame could not be built.
    #[error(transparent)]
    Frame(FrameError),
    /// The source could not be copied. Nothing was written.
    #[error(transparent)]
    Copy(CopyError),
    /// Memory could not be allocated.
    #[error("out of memory")]
    OutOfMemory,
    /// A write failed.
    #[error("cannot write the output")]
    Output,
    /// A write took none of the bytes that it was given.
    #[error("write took nothing")]
    WriteZero,
}

impl From<AllocError> for ToolFault {
    ghost use Rattle.std.specs.Prelude.{◌≡◌};
    ghost use Rattle.v_frame_tool_run.specs.declared.fault.ToolFault.TheVariants.{OutOfMemory};

    ghost from_gives = { λ refused fault. fault ≡ OutOfMemory };

    fn from(_refused: AllocError) -> Self {
        ToolFault::OutOfMemory
    }
}

impl From<WriteFault> for ToolFault {
    ghost use Rattle.std.specs.Prelude.{◌≡◌};
    ghost use Rattle.v_frame_tool_run.specs.Run.{tool_fault_of};

    ghost from_gives = { λ fault tool_fault. tool_fault ≡ tool_fault_of fault };

    fn from(fault: WriteFault) -> Self {
        match fault {
            WriteFault::Failed => ToolFault::Output,
            WriteFault::TookNothing => ToolFault::WriteZero,
        }
    }
}

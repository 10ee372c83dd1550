//! Tests of the messages of errors and faults.

use crate::fault::ToolFault;
use crate::planar::PlanarError;
use crate::tests::support::texts::must_display;
use std::alloc::AllocError;
use v_frame::frame::FrameError;
use v_frame::plane::CopyError;

/// Errors of building a frame, with their messages.
static FRAMES: [(FrameError, &str); 4] = [
    (
        FrameError::UnsupportedBitDepth { found: 7 },
        "only 8-16 bit frame data is supported, tried to create 7 bit frame",
    ),
    (
        FrameError::DataTypeMismatch,
        "bit depth did not match requested data type",
    ),
    (
        FrameError::UnsupportedResolution,
        "selected chroma subsampling does not support odd resolutions",
    ),
    (FrameError::OutOfMemory, "out of memory"),
];

/// Errors of copies, with their messages.
static COPIES: [(CopyError, &str); 2] = [
    (
        CopyError::DataLength {
            expected: 6,
            found: 5,
        },
        "data length mismatch, expected 6, found 5",
    ),
    (
        CopyError::InvalidStride {
            stride: 3,
            width: 2,
        },
        "provided stride 3 was less than the visible width 2",
    ),
];

/// Errors of reading and writing planar bytes, with their messages.
static PLANAR: [(PlanarError, &str); 6] = [
    (
        PlanarError::Truncated {
            expected: 6,
            found: 1,
        },
        "truncated frame, expected 6 bytes, found 1",
    ),
    (PlanarError::TooLarge, "frame too large"),
    (PlanarError::Read, "read failed"),
    (PlanarError::Write, "write failed"),
    (PlanarError::WriteZero, "write took nothing"),
    (PlanarError::OutOfMemory, "out of memory"),
];

/// Faults of the program, with their messages.
static FAULTS: [(ToolFault, &str); 5] = [
    (
        ToolFault::Frame(FrameError::DataTypeMismatch),
        "bit depth did not match requested data type",
    ),
    (
        ToolFault::Copy(CopyError::DataLength {
            expected: 8,
            found: 7,
        }),
        "data length mismatch, expected 8, found 7",
    ),
    (ToolFault::OutOfMemory, "out of memory"),
    (ToolFault::Output, "cannot write the output"),
    (ToolFault::WriteZero, "write took nothing"),
];

#[test]
fn errors_and_faults_are_explained(rt: HostRuntime) {
    let rt = &rt;
    must_display(rt, &FRAMES);
    must_display(rt, &COPIES);
    must_display(rt, &[(AllocError, "memory allocation failed")]);
    must_display(rt, &PLANAR);
    must_display(rt, &FAULTS);
}

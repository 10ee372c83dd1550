//! The faults of the program.

use std::fmt;
use std::io::{self, ErrorKind};
use v_frame::frame::FrameError;

/// The reason why not all cases were executed.
#[derive(Drop)]
pub enum CaseFault {
    /// The input could not be read.
    Read,
    /// The output could not be written.
    Write,
    /// Memory could not be allocated.
    OutOfMemory,
    /// A line of the input is malformed.
    Malformed {
        /// The number of the line, counted from 1.
        line: u64,
        /// The fault of the line.
        fault: LineFault,
    },
}

/// The faults of a line.
#[derive(Drop)]
pub enum LineFault {
    /// The line is not UTF-8.
    NotText,
    /// The input ends in the line.
    LineNotEnded,
    /// The input ends before the line, inside a case.
    EndOfInput,
    /// The line is empty.
    EmptyLine,
    /// A token is empty: there are two adjacent spaces, or a space at an end of the line.
    EmptyToken,
    /// A required token is missing at the end of the line.
    MissingToken,
    /// There are tokens after the last one of the line.
    ExtraToken,
    /// A token should be a number, but does not consist of decimal digits or exceeds 64 bits.
    NotANumber,
    /// A number is above the largest of its type.
    NumberTooLarge,
    /// A case should begin here.
    NotACase,
    /// The kind of the case is unknown.
    UnknownKind,
    /// A frame should begin here.
    NotAFrame,
    /// The pixel type is unknown.
    UnknownPixelType,
    /// The format is unknown.
    UnknownFormat,
    /// An edit or the calls should be here.
    NotAnEdit,
    /// The way to fill a plane is unknown.
    UnknownFill,
    /// There is no plane with this number, or it is luma, which cannot be removed.
    UnknownPlane,
    /// The frame does not have the plane to fill.
    AbsentPlane,
    /// The length of a list differs from the number of pixels to fill.
    FillLength {
        /// The number of pixels to fill.
        expected: usize,
        /// The length of the list.
        found: usize,
    },
    /// The calls should begin here.
    NotCalls,
    /// The call is unknown.
    UnknownCall,
    /// The way to specify the source of a copy is unknown.
    UnknownSource,
    /// The side of an iterator is unknown.
    UnknownSide,
    /// A build should be here.
    NotABuild,
    /// The case should end here.
    NotTheEnd,
    /// The pixel types of the two frames of a pair differ.
    OtherPixelType,
    /// The frame or the plane cannot be built.
    NotBuilt(FrameError),
}

impl fmt::Display for CaseFault {
    fn fmt<W: fmt::Write>(&self, f: &mut fmt::Formatter<W>) -> fmt::Result {
        match self {
            CaseFault::Read => f.write_str("cannot read the input"),
            CaseFault::Write => f.write_str("cannot write the output"),
            CaseFault::OutOfMemory => f.write_str("out of memory"),
            CaseFault::Malformed { line, fault } => match fault {
                LineFault::FillLength { expected, found } => {
                    write!(
                        f,
                        "line {line}: expected {expected} pixels to fill, found {found}"
                    )
                }
                LineFault::NotBuilt(error) => write!(f, "line {line}: not built: {error}"),
                other => write!(f, "line {line}: {}", other.text()),
            },
        }
    }
}

impl CaseFault {
    /// Returns the fault of a read or a write that failed: `other`, unless memory could not be allocated.
    pub fn of_io(error: &io::Error, other: CaseFault) -> Self {
        if error.kind() == ErrorKind::OutOfMemory {
            CaseFault::OutOfMemory
        } else {
            other
        }
    }
}

impl LineFault {
    /// Returns the message, if it contains no number and no other error.
    fn text(&self) -> &'static str {
        match self {
            LineFault::NotText => "not UTF-8",
            LineFault::LineNotEnded => "no line feed at the end",
            LineFault::EndOfInput => "the input ends inside a case",
            LineFault::EmptyLine => "empty line",
            LineFault::EmptyToken => "more than one space, or a space at an end",
            LineFault::MissingToken => "a token is missing",
            LineFault::ExtraToken => "more tokens than there should be",
            LineFault::NotANumber => "not a decimal number of 64 bits",
            LineFault::NumberTooLarge => "number too large",
            LineFault::NotACase => "expected `case`",
            LineFault::UnknownKind => "unknown kind of case",
            LineFault::NotAFrame => "expected `frame`",
            LineFault::UnknownPixelType => "unknown type of pixels",
            LineFault::UnknownFormat => "unknown format",
            LineFault::NotAnEdit => "expected an edit or what follows the frame",
            LineFault::UnknownFill => "unknown way to fill a plane",
            LineFault::UnknownPlane => "no such plane to edit",
            LineFault::AbsentPlane => "the plane to fill is absent",
            LineFault::NotCalls => "expected `calls`",
            LineFault::UnknownCall => "unknown call",
            LineFault::UnknownSource => "unknown source",
            LineFault::UnknownSide => "unknown side",
            LineFault::NotABuild => "expected `build`",
            LineFault::NotTheEnd => "expected `end`",
            LineFault::OtherPixelType => "the frames of a pair have pixels of two types",
            LineFault::FillLength { .. } => "wrong number of pixels to fill",
            LineFault::NotBuilt(_) => "not built",
        }
    }
}

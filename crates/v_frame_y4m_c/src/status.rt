//! The statuses, and the letters of parameters at fault.
ghost use Rattle.std.specs.Prelude.{◌≡◌};
ghost use Rattle.v_frame_y4m_c.specs.Header.{letter_of, status_of};
ghost use Rattle.v_frame_y4m_c.specs.Status.{status_of_extensions, status_of_line, status_of_numbers};

use crate::extensions::ExtensionFault;
use crate::lines::LineFault;
use crate::numbers::NumberFault;
use v_frame_y4m::HeaderError;

/// The call has succeeded.
pub const OK: u32 = 0;
/// The number of bytes of a frame does not fit `usize`.
pub const SIZE_TOO_LARGE: u32 = 6;
/// A request for memory failed.
pub const OUT_OF_MEMORY: u32 = 8;
/// The buffer is too short for the line.
pub const SHORT_BUFFER: u32 = 10;
/// The line is not one that begins a frame.
pub const NO_FRAME: u32 = 13;

/// Returns the status of an error.
pub fn status_of(error: &HeaderError) -> u32
    ensures { result ≡ status_of error.now }
{
    match error {
        HeaderError::NotAStream => 1,
        HeaderError::Missing(_) => 2,
        HeaderError::Duplicate(_) => 3,
        HeaderError::Malformed(_) => 4,
        HeaderError::ZeroSize(_) => 5,
        HeaderError::SizeTooLarge(_) => 6,
        HeaderError::UnknownColor(_) => 7,
        HeaderError::OutOfMemory => 8,
    }
}

/// Returns the letter of the parameter that an error names, or 0.
pub fn letter_of(error: &HeaderError) -> u32
    ensures { result ≡ letter_of error.now }
{
    match error {
        HeaderError::Missing(letter)
        | HeaderError::Duplicate(letter)
        | HeaderError::ZeroSize(letter) => u32::from(*letter),
        _ => 0,
    }
}

/// Returns the status of numbers that no header has.
pub fn status_of_numbers(fault: &NumberFault) -> u32
    ensures { result ≡ status_of_numbers fault.now }
{
    match fault {
        NumberFault::ZeroSize => 5,
        NumberFault::NoSuchColor => 7,
        NumberFault::NoSuchNumber => 9,
    }
}

/// Returns the status of a text that does not state the extensions of a header.
pub fn status_of_extensions(fault: &ExtensionFault) -> u32
    ensures { result ≡ status_of_extensions fault.now }
{
    match fault {
        ExtensionFault::OutOfMemory => 8,
        ExtensionFault::NotExtensions => 15,
        ExtensionFault::OtherRange => 16,
    }
}

/// Returns the status of bytes that do not begin with a line.
pub fn status_of_line(fault: &LineFault) -> u32
    ensures { result ≡ status_of_line fault.now }
{
    match fault {
        LineFault::Unfinished => 11,
        LineFault::TooLong => 12,
    }
}

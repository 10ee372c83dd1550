//! Parts of header lines for error messages.
ghost use Rattle.std.specs.Prelude.{◌≡◌, IfOk};
ghost use Rattle.v_frame_y4m.specs.Ascii.{shown_byte};

use std::alloc::{AllocError, Global};
use std::fmt;
use v_frame::sequence::Sequence;

/// A part of a header line, with arbitrary bytes. It is displayed with `?` for each byte that is not printable ASCII.
#[derive(Debug, PartialEq, Eq, Drop)]
pub struct Text {
    /// The bytes of the part.
    pub bytes: Sequence<u8>,
}

impl Text {
    /// Returns a copy of `bytes`.
    ///
    /// # Errors
    ///
    /// [`AllocError`] if a memory allocation fails.
    pub fn new(alloc: Global, bytes: &[u8]) -> Result<Self, AllocError>
        ensures { IfOk result (λ text. text.bytes ≡ bytes.now) }
    {
        let bytes = Sequence::from_slice(alloc, bytes)?;
        Ok(Text { bytes })
    }

    /// Returns the character that a message displays for `byte`: the byte itself if it is printable ASCII, and `?` otherwise.
    pub fn shown(byte: u8) -> char
        ensures { result ≡ shown_byte byte }
    {
        if byte.is_ascii_graphic() {
            byte as char
        } else {
            '?'
        }
    }
}

impl fmt::Display for Text {
    fn fmt<W: fmt::Write>(&self, f: &mut fmt::Formatter<W>) -> fmt::Result {
        for &byte in self.bytes.as_slice() {
            f.write_char(Text::shown(byte))?;
        }
        Ok(())
    }
}

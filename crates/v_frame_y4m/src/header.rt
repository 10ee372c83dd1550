//! The contents of a header line.
ghost use Rattle.std.specs.Prelude.{◌≡◌, ◌≢◌, ◌↔◌, string_bytes, IfOk, IsTrue, MatchOption};
ghost use Rattle.v_frame_y4m.specs.Header.{interlacing_text, ratio_text, IsPiece, IsWritable};
ghost use Rattle.v_frame_y4m.specs.declared.header.Interlacing.{Interlacing as TheInterlacing};

use crate::color::Color;
use std::alloc::{AllocError, Global};
use v_frame::sequence::Sequence;

/// A ratio of two numbers, such as the frame rate `30000:1001`.
#[derive(Debug, Clone, Copy, PartialEq, Eq)]
pub struct Ratio {
    /// The number before the colon.
    pub numerator: u64,
    /// The number after the colon. `0:0` means that the ratio is unknown. A zero on only one side is accepted too.
    pub denominator: u64,
}

impl Ratio {
    /// Returns the two numbers in decimal with a colon between them.
    ///
    /// # Errors
    ///
    /// [`AllocError`] if a memory allocation fails.
    pub fn text(self, alloc: Global) -> Result<String, AllocError>
        ensures { IfOk result (λ text. string_bytes text ≡ ratio_text self) }
    {
        let Ratio {
            numerator,
            denominator,
        } = self;
        format!(in alloc; "{numerator}:{denominator}")
    }
}

/// The interlacing of the frames of a stream.
#[derive(Debug, Clone, Copy, PartialEq, Eq)]
pub enum Interlacing {
    /// `p`: progressive.
    Progressive,
    /// `t`: interlaced, top field first.
    TopFirst,
    /// `b`: interlaced, bottom field first.
    BottomFirst,
    /// `m`: mixed, with frames of several kinds.
    Mixed,
    /// `?`: unknown.
    Unknown,
}

impl Interlacing {
    /// Returns the text after the letter `I`.
    pub fn text(self) -> &'static str
        ensures { result.now ≡ interlacing_text self }
    {
        match self {
            Interlacing::Progressive => "p",
            Interlacing::TopFirst => "t",
            Interlacing::BottomFirst => "b",
            Interlacing::Mixed => "m",
            Interlacing::Unknown => "?",
        }
    }

    /// Parses the text after the letter `I`.
    pub(crate) fn parse(text: &[u8]) -> Option<Self>
        ensures { MatchOption result ((i : TheInterlacing) → text.now ≢ interlacing_text i)
            (λ i. text.now ≡ interlacing_text i) }
    {
        match text {
            b"p" => Some(Interlacing::Progressive),
            b"t" => Some(Interlacing::TopFirst),
            b"b" => Some(Interlacing::BottomFirst),
            b"m" => Some(Interlacing::Mixed),
            b"?" => Some(Interlacing::Unknown),
            _ => None,
        }
    }
}

/// The contents of the header line of a stream.
#[derive(Debug, PartialEq, Eq, Drop)]
pub struct StreamHeader {
    /// `W`: the width in pixels. At least 1 in a valid stream.
    pub width: usize,
    /// `H`: the height in pixels. At least 1 in a valid stream.
    pub height: usize,
    /// `F`: the frame rate in frames per second.
    pub frame_rate: Option<Ratio>,
    /// `I`: the interlacing.
    pub interlacing: Option<Interlacing>,
    /// `A`: the pixel aspect ratio, width to height.
    pub pixel_aspect: Option<Ratio>,
    /// `C`: the color. It is [`Color::Unstated`] if the line has no such parameter.
    pub color: Color,
    /// `X`: the texts after the letter of each extension, unchanged and in their order. In a valid stream they contain no space
    /// and no line feed.
    pub extensions: Sequence<Sequence<u8>>,
}

impl StreamHeader {
    /// Returns whether [`write_header`](crate::write_header) can write this header: the width and the height are at least 1,
    /// and no extension contains a space or a line feed.
    ///
    /// Every header that was read can be written. A line of more than [`MAX_LINE_BYTES`](crate::MAX_LINE_BYTES) is written too,
    /// although no reader of this crate accepts it. A carriage return at the end of the last extension is written, too.
    /// [`read_header`](crate::read_header) reads it back, but [`read_lax_header`](crate::read_lax_header) leaves it out, because
    /// lax lines may end with a carriage return.
    pub fn is_writable(&self) -> bool
        ensures { IsTrue result ↔ IsWritable self.now }
    {
        self.width > 0 && self.height > 0 && self.extensions.iter().all(is_piece)
    }
}

/// Returns whether `text` contains no space and no line feed.
fn is_piece(text: &Sequence<u8>) -> bool
    ensures { IsTrue result ↔ IsPiece text.now }
{
    text.iter().all(|&byte| byte != b' ' && byte != b'\n')
}

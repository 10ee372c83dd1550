//! Laws of headers and their lines. Each law is the contract of a function.
ghost use Rattle.std.specs.Prelude.{ℕ, ◌≡◌, ◌≢◌, ◌<◌, List, All, drop, None, Option, Some};
ghost use Rattle.v_frame.specs.Prelude.{ChromaSubsampling as TheFormat};
ghost use Rattle.v_frame_y4m.specs.Ascii.{carriage_return};
ghost use Rattle.v_frame_y4m.specs.Color.{color_with, depth_of, siting_of, subsampling_of};
ghost use Rattle.v_frame_y4m.specs.Faults.{IsRefusedFor};
ghost use Rattle.v_frame_y4m.specs.Header.{header_line as line_of, pieces, HasSize, IsHeader, IsInOrder, IsPiece, IsWritable};
ghost use Rattle.v_frame_y4m.specs.Lax.{last_byte, strict_line, IsLaxFrameLine};
ghost use Rattle.v_frame_y4m.specs.Streams.{IsFrameLine};
ghost use Rattle.v_frame_y4m.specs.declared.color.ChromaSiting.{ChromaSiting as TheSiting};
ghost use Rattle.v_frame_y4m.specs.declared.color.Color.{Color as TheColor};
ghost use Rattle.v_frame_y4m.specs.declared.error.HeaderError.{HeaderError as TheError};
ghost use Rattle.v_frame_y4m.specs.declared.header.StreamHeader.{StreamHeader as TheHeader};

use crate::error::HeaderError;

/// A line states at most one header.
pub fn headers_are_told_apart()
    ensures { (line : List ℕ) (h k : TheHeader) → IsHeader line h → IsHeader line k → h ≡ k }
{}

/// A line that is rejected states no header, unless the cause is a failed memory allocation.
pub fn refused_lines_say_nothing()
    ensures { (line : List ℕ) (error : TheError) (h : TheHeader) → error ≢ HeaderError.OutOfMemory
        → IsRefusedFor line error → IsHeader line h → ⊥ }
{}

/// The line that is written for a header states that header.
pub fn written_lines_say_the_header()
    ensures { (h : TheHeader) → HasSize h → All IsPiece h.extensions → IsHeader (line_of h) h }
{}

/// If the parameters of a line are in the order of the writer (W, H, F, I, A, C and each X), reading and writing it gives the
/// same line.
pub fn lines_in_order_are_written_back()
    ensures { (line : List ℕ) (h : TheHeader) → IsHeader line h → IsInOrder (drop 1 (pieces line))
        → line_of h ≡ line }
{}

/// A header that is written and read again is unchanged, unless a memory allocation fails.
pub fn written_headers_are_read_back()
    ensures same { (h k : TheHeader) → HasSize h → All IsPiece h.extensions
        → IsHeader (line_of h) k → k ≡ h }
    ensures unrefused { (h : TheHeader) (error : TheError) → HasSize h → All IsPiece h.extensions
        → IsRefusedFor (line_of h) error → error ≡ HeaderError.OutOfMemory }
{}

/// A header that can be written stays writable if its numbers, its interlacing and its color change, as long as the width and
/// the height are at least 1.
pub fn changed_headers_are_writable()
    ensures { (h k : TheHeader) → IsWritable h → k.extensions ≡ h.extensions
        → 0 < k.width → 0 < k.height → IsWritable k }
{}

/// A valid header line that does not end in a carriage return is its own strict line. So reading it as a lax line gives the
/// same header.
pub fn header_lines_are_strict()
    ensures { (line : List ℕ) (h : TheHeader) → IsHeader line h
        → last_byte line ≢ carriage_return → strict_line line ≡ line }
{}

/// A strict line is its own strict line, unless it still ends in a carriage return. That happens if the lax line ended in two.
pub fn strict_lines_stay()
    ensures { (line : List ℕ) → last_byte (strict_line line) ≢ carriage_return
        → strict_line (strict_line line) ≡ strict_line line }
{}

/// The line that is written for a header is its own strict line, unless it ends in a carriage return, as its last extension
/// may.
pub fn written_lines_are_strict()
    ensures { (h : TheHeader) → HasSize h → All IsPiece h.extensions
        → last_byte (line_of h) ≢ carriage_return → strict_line (line_of h) ≡ line_of h }
{}

/// A strict line in front of a frame is also a lax one.
pub fn frame_lines_are_read_as_lax_ones()
    ensures { (line : List ℕ) → IsFrameLine line → IsLaxFrameLine line }
{}

/// The color that is found for a chroma subsampling, a bit depth and a siting has all three. If none is found, no color has
/// them.
pub fn found_colors_have_the_three()
    ensures has { (s : TheFormat) (bits : ℕ) (siting : Option TheSiting) (c : TheColor)
        → color_with s bits siting ≡ Some c
        → (subsampling_of c ≡ s) × ((depth_of c ≡ bits) × (siting_of c ≡ siting)) }
    ensures none { (s : TheFormat) (bits : ℕ) (siting : Option TheSiting) (c : TheColor)
        → color_with s bits siting ≡ None
        → subsampling_of c ≡ s → depth_of c ≡ bits → siting_of c ≢ siting }
{}

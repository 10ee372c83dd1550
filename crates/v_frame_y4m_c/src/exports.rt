//! The calls of the library for C.
ghost use Rattle.std.specs.Prelude.{List, ℕ, ◌≡◌, ◌≢◌, ◌+◌, ◌<◌, ◌≤◌, ◌++◌, ◌∷◌, [], length, take};
ghost use Rattle.v_frame.specs.Prelude.{usize_max};
ghost use Rattle.v_frame_y4m.specs.Ascii.{line_feed};
ghost use Rattle.v_frame_y4m.specs.Faults.{IsRefusedFor};
ghost use Rattle.v_frame_y4m.specs.Frames.{frame_byte_count};
ghost use Rattle.v_frame_y4m.specs.Header.{header_line, IsHeader, IsWritable};
ghost use Rattle.v_frame_y4m.specs.Lax.{strict_line, IsLaxFrameLine};
ghost use Rattle.v_frame_y4m.specs.Streams.{IsFrameLine};
ghost use Rattle.v_frame_y4m.specs.declared.error.HeaderError.{HeaderError as TheError};
ghost use Rattle.v_frame_y4m.specs.declared.header.StreamHeader.{StreamHeader as TheHeader};
ghost use Rattle.v_frame_y4m_c.specs.Extensions.{extension_texts, HasExtensions, HasNoExtensions};
ghost use Rattle.v_frame_y4m_c.specs.Header.{letter_of as letter_in, numbers_of, status_of as status_in};
ghost use Rattle.v_frame_y4m_c.specs.Lax.{Says};
ghost use Rattle.v_frame_y4m_c.specs.Lines.{HasNoLine, IsFirstLine};
ghost use Rattle.v_frame_y4m_c.specs.Numbers.{HasNoHeader, IsHeaderOf, IsWrittenHeader, IsWrittenInFront};
ghost use Rattle.v_frame_y4m_c.specs.Status.{no_frame, not_extensions, other_range, out_of_memory, short_buffer, size_too_large, status_of_line as line_status, status_of_numbers as number_status};
ghost use Rattle.v_frame_y4m_c.specs.declared.extensions.ExtensionFault.TheVariants.{NotExtensions, OtherRange};
ghost use Rattle.v_frame_y4m_c.specs.declared.header.Header.{Header as Numbers};
ghost use Rattle.v_frame_y4m_c.specs.declared.lines.LineFault.{LineFault as TheLineFault};
ghost use Rattle.v_frame_y4m_c.specs.declared.numbers.NumberFault.{NumberFault as TheNumberFault};

use crate::extensions::{spelled, with_range};
use crate::header::Header;
use crate::lines::line_length;
use crate::status::{
    NO_FRAME, OK, OUT_OF_MEMORY, SHORT_BUFFER, SIZE_TOO_LARGE, letter_of, status_of,
    status_of_extensions, status_of_line, status_of_numbers,
};
use std::alloc::Global;
use v_frame::sequence::Sequence;
use v_frame_y4m::{
    StreamHeader, header_line_with_newline, is_frame_line, is_lax_frame_line, parse_lax_header,
};

/// Parses a header line without its line feed. A line as lax producers write it is read as the strict line that it stands for.
/// `letter` becomes the letter of the parameter at fault, or 0, and `is_lax` becomes 1 if the line is not strict itself, or 0.
#[unsafe(no_mangle)]
pub extern "C" fn v_frame_y4m_parse_header(
    alloc: Global,
    line: &[u8],
    header: &mut Header,
    letter: &mut u32,
    is_lax: &mut u32,
) -> u32
    ensures parsed { result ≡ 0 → Says line.now header.new }
    ensures strict { result ≡ 0 → is_lax.new ≡ 0 → strict_line line.now ≡ line.now }
    ensures lax { result ≡ 0 → is_lax.new ≢ 0 → strict_line line.now ≢ line.now }
    ensures flag { is_lax.new ≤ 1 }
    ensures refused { result ≢ 0 → (error : TheError)
        × IsRefusedFor (strict_line line.now) error
        × (result ≡ status_in error) × (letter.new ≡ letter_in error) }
    ensures kept { result ≢ 0 → header.new ≡ header.old }
    ensures no_flag { result ≢ 0 → is_lax.new ≡ 0 }
    ensures no_letter { result ≡ 0 → letter.new ≡ 0 }
{
    match parse_lax_header(alloc, line) {
        Ok((found, is_strict)) => {
            *header = Header::of(&found);
            *letter = 0;
            *is_lax = if is_strict { 0 } else { 1 };
            OK
        }
        Err(error) => {
            *letter = letter_of(&error);
            *is_lax = 0;
            status_of(&error)
        }
    }
}

/// Writes the extensions of a header line to the front of a buffer, as they stand in the line: each after a space and the letter
/// `X`. `needed` becomes the number of their bytes. If the buffer is shorter, nothing is written.
#[unsafe(no_mangle)]
pub extern "C" fn v_frame_y4m_extensions(
    alloc: Global,
    line: &[u8],
    buffer: &mut [u8],
    needed: &mut usize,
) -> u32
    ensures written { result ≡ 0 → (h : TheHeader) × IsHeader (strict_line line.now) h
        × IsWrittenInFront (extension_texts h) buffer.old buffer.new
        × (needed.new ≡ length (extension_texts h)) }
    ensures short { result ≡ short_buffer → (h : TheHeader) × IsHeader (strict_line line.now) h
        × (length buffer.old < length (extension_texts h))
        × (needed.new ≡ length (extension_texts h)) }
    ensures refused { result ≢ 0 → result ≢ short_buffer → result ≢ out_of_memory → (error : TheError)
        × IsRefusedFor (strict_line line.now) error × (result ≡ status_in error) }
    ensures kept { result ≢ 0 → buffer.new ≡ buffer.old }
    ensures needed { result ≢ 0 → result ≢ short_buffer → needed.new ≡ needed.old }
{
    let found = match parse_lax_header(alloc, line) {
        Ok((found, _)) => found,
        Err(error) => return status_of(&error),
    };
    let Ok(text) = spelled(alloc, found.extensions.as_slice()) else {
        return OUT_OF_MEMORY;
    };
    *needed = text.len();
    if text.len() > buffer.len() {
        return SHORT_BUFFER;
    }
    buffer[..text.len()].copy_from_slice(text.as_slice());
    OK
}

/// Finds where the first line of bytes ends: its length with its line feed.
#[unsafe(no_mangle)]
pub extern "C" fn v_frame_y4m_first_line(bytes: &[u8], length: &mut usize) -> u32
    ensures found { result ≡ 0 → (n : ℕ) × IsFirstLine bytes.now n × (length.new ≡ n + 1) }
    ensures refused { result ≢ 0 → (fault : TheLineFault) × HasNoLine bytes.now fault
        × (result ≡ line_status fault) }
    ensures kept { result ≢ 0 → length.new ≡ length.old }
{
    match line_length(bytes) {
        Ok(found) => {
            *length = found + 1;
            OK
        }
        Err(fault) => status_of_line(&fault),
    }
}

/// Finds where the line before a frame ends, which the bytes begin with: its length with its line feed. `is_lax` becomes 1 if a
/// carriage return precedes the line feed of a line that is not strict itself, or 0.
#[unsafe(no_mangle)]
pub extern "C" fn v_frame_y4m_frame_line(bytes: &[u8], length: &mut usize, is_lax: &mut u32) -> u32
    ensures found { result ≡ 0 → (n : ℕ) × IsFirstLine bytes.now n
        × IsLaxFrameLine (take n bytes.now) × (length.new ≡ n + 1) }
    ensures strict { result ≡ 0 → is_lax.new ≡ 0 → (n : ℕ) × IsFirstLine bytes.now n
        × IsFrameLine (take n bytes.now) × (length.new ≡ n + 1) }
    ensures lax { result ≡ 0 → is_lax.new ≢ 0 → (n : ℕ) × IsFirstLine bytes.now n
        × IsLaxFrameLine (take n bytes.now) × ¬ (IsFrameLine (take n bytes.now)) × (length.new ≡ n + 1) }
    ensures flag { is_lax.new ≤ 1 }
    ensures other { result ≡ no_frame → (n : ℕ) × IsFirstLine bytes.now n
        × ¬ (IsFrameLine (take n bytes.now)) × ¬ (IsLaxFrameLine (take n bytes.now)) }
    ensures refused { result ≢ 0 → result ≢ no_frame → (fault : TheLineFault)
        × HasNoLine bytes.now fault × (result ≡ line_status fault) }
    ensures kept { result ≢ 0 → length.new ≡ length.old }
    ensures no_flag { result ≢ 0 → is_lax.new ≡ 0 }
{
    *is_lax = 0;
    match line_length(bytes) {
        Ok(found) if is_frame_line(&bytes[..found]) => {
            *length = found + 1;
            OK
        }
        Ok(found) if is_lax_frame_line(&bytes[..found]) => {
            *length = found + 1;
            *is_lax = 1;
            OK
        }
        Ok(_) => NO_FRAME,
        Err(fault) => status_of_line(&fault),
    }
}

/// Writes the line of a header with its line feed to the front of a buffer. `needed` becomes the number of its bytes. The
/// extensions are a text as `v_frame_y4m_extensions` writes it; an extension that states the range precedes them if they do not
/// state it. If the buffer is shorter, nothing is written.
#[unsafe(no_mangle)]
pub extern "C" fn v_frame_y4m_write_header(
    alloc: Global,
    header: &Header,
    extensions: &[u8],
    buffer: &mut [u8],
    needed: &mut usize,
) -> u32
    ensures written { result ≡ 0 → (h : TheHeader) × IsWrittenHeader header.now extensions.now h
        × IsWrittenInFront (header_line h ++ line_feed ∷ []) buffer.old buffer.new
        × (needed.new ≡ length (header_line h ++ line_feed ∷ [])) }
    ensures short { result ≡ short_buffer → (h : TheHeader) × IsWrittenHeader header.now extensions.now h
        × (length buffer.old < length (header_line h ++ line_feed ∷ []))
        × (needed.new ≡ length (header_line h ++ line_feed ∷ [])) }
    ensures memory { result ≡ out_of_memory → (h : TheHeader) × IsHeaderOf header.now h }
    ensures extensions { result ≡ not_extensions → (h : TheHeader) × IsHeaderOf header.now h
        × HasNoExtensions header.now.range extensions.now NotExtensions }
    ensures range { result ≡ other_range → (h : TheHeader) × IsHeaderOf header.now h
        × HasNoExtensions header.now.range extensions.now OtherRange }
    ensures refused { result ≢ 0 → result ≢ short_buffer → result ≢ out_of_memory
        → result ≢ not_extensions → result ≢ other_range
        → (fault : TheNumberFault) × HasNoHeader header.now fault × (result ≡ number_status fault) }
    ensures no_header { result ≢ 0 → result ≢ short_buffer → result ≢ out_of_memory
        → result ≢ not_extensions → result ≢ other_range
        → (h : TheHeader) → IsWritable h → numbers_of h ≢ header.now }
    ensures kept { result ≢ 0 → buffer.new ≡ buffer.old }
    ensures needed { result ≢ 0 → result ≢ short_buffer → needed.new ≡ needed.old }
{
    let numbers = match header.stream_header(alloc) {
        Ok(numbers) => numbers,
        Err(fault) => return status_of_numbers(&fault),
    };
    let extensions = match with_range(alloc, header.range, extensions) {
        Ok(extensions) => extensions,
        Err(fault) => return status_of_extensions(&fault),
    };
    let found = with_extensions(&numbers, extensions);
    let Ok(line) = header_line_with_newline(alloc, &found) else {
        return OUT_OF_MEMORY;
    };
    *needed = line.len();
    if line.len() > buffer.len() {
        return SHORT_BUFFER;
    }
    buffer[..line.len()].copy_from_slice(line.as_slice());
    OK
}

/// Returns a header with the numbers of a header and these extensions.
#[tactic(auto, using(crate::proofs::HeadersFound::written))]
fn with_extensions(numbers: &StreamHeader, extensions: Sequence<Sequence<u8>>) -> StreamHeader
    ensures { (n : Numbers) → (text : List ℕ) → IsHeaderOf n numbers.now
        → HasExtensions n.range text extensions → IsWrittenHeader n text result }
{
    StreamHeader {
        width: numbers.width,
        height: numbers.height,
        frame_rate: numbers.frame_rate,
        interlacing: numbers.interlacing,
        pixel_aspect: numbers.pixel_aspect,
        color: numbers.color,
        extensions,
    }
}

/// Counts the bytes of a frame of a stream after its line: the planes Y, U and V.
#[unsafe(no_mangle)]
pub extern "C" fn v_frame_y4m_frame_bytes(alloc: Global, header: &Header, count: &mut usize) -> u32
    ensures counted { result ≡ 0 → (h : TheHeader) × IsHeaderOf header.now h
        × (count.new ≡ frame_byte_count h) }
    ensures large { result ≡ size_too_large → (h : TheHeader) × IsHeaderOf header.now h
        × (usize_max < frame_byte_count h) }
    ensures refused { result ≢ 0 → result ≢ size_too_large
        → (fault : TheNumberFault) × HasNoHeader header.now fault × (result ≡ number_status fault) }
    ensures no_header { result ≢ 0 → result ≢ size_too_large
        → (h : TheHeader) → IsWritable h → numbers_of h ≢ header.now }
    ensures kept { result ≢ 0 → count.new ≡ count.old }
{
    match header.stream_header(alloc) {
        Ok(found) => match found.frame_len() {
            Some(bytes) => {
                *count = bytes;
                OK
            }
            None => SIZE_TOO_LARGE,
        },
        Err(fault) => status_of_numbers(&fault),
    }
}

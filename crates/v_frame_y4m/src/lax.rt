//! Lax lines: deviations of some writers that are accepted, and the strict line that each lax line means.
//!
//! A lax line may end in a carriage return, may have more than one space between two pieces or spaces at either end, and may
//! give the frame rate without its denominator, as in `F25`. All other deviations are rejected.
ghost use Rattle.std.specs.Prelude.{◌≡◌, ◌↔◌, IfOk, IfErr, IsTrue, MatchResult, OnOk};
ghost use Rattle.v_frame_y4m.specs.Faults.{IsRefusedFor};
ghost use Rattle.v_frame_y4m.specs.Header.{texts_of, IsHeader, IsWritable};
ghost use Rattle.v_frame_y4m.specs.Lax.{followed_by, full_rate, is_whole_rate, joined, strict_line, without_return, IsLaxFrameLine, MayStopInLaxFrameLine, MayStopInLaxHeader, ReadsLaxFrameLine, ReadsLaxHeader};
ghost use Rattle.v_frame_y4m.specs.Streams.{TellsStreamCause};

use crate::error::{HeaderError, Y4mError};
use crate::header::StreamHeader;
use crate::lines::read_line;
use crate::numbers::are_digits;
use crate::parameters::pieces_of;
use crate::parsing::parse_header;
use crate::streams::{MAX_LINE_BYTES, is_frame_line};
use std::alloc::{AllocError, Global};
use std::io;
use v_frame_planar::Counted;

/// Reads the header line of a stream, strict or lax. Returns the header, and whether the line was strict. Nothing after the
/// line feed is read.
///
/// The header is the one that [`strict_line`] of the line states.
///
/// # Errors
///
/// The errors of [`read_header`](crate::read_header). [`Y4mError::Header`] refers to the strict line.
pub fn read_lax_header<R: io::Read>(
    alloc: Global,
    reader: &mut Counted<R>,
) -> Result<(StreamHeader, bool), Y4mError>
    ensures read { IfOk result (ReadsLaxHeader R.remaining reader.old reader.new) }
    ensures writable { IfOk result (λ found. IsWritable found.0) }
    ensures uncounted { OnOk result (reader.new.failures ≡ reader.old.failures) }
    ensures error { IfErr result (MayStopInLaxHeader R.remaining reader.old reader.new) }
    ensures cause { MatchResult result (λ _. reader.new.last_failure ≡ reader.old.last_failure)
        (TellsStreamCause reader.old.last_failure reader.new.last_failure) }
{
    let mut line = [0; MAX_LINE_BYTES];
    let Some(length) = read_line(reader, &mut line)? else {
        return Err(Y4mError::UnfinishedLine);
    };
    Ok(parse_lax_header(alloc, &line[..length])?)
}

/// Reads the line in front of a frame, strict or lax. Returns `false` if the reader was at its end. The bytes of the frame are
/// left for [`v_frame_planar::read_frame`].
///
/// # Errors
///
/// The errors of [`read_frame_line`](crate::read_frame_line). [`Y4mError::NoFrame`] is returned if [`is_lax_frame_line`] is
/// `false` for the line.
pub fn read_lax_frame_line<R: io::Read>(reader: &mut Counted<R>) -> Result<bool, Y4mError>
    ensures read { IfOk result (ReadsLaxFrameLine R.remaining reader.old reader.new) }
    ensures uncounted { OnOk result (reader.new.failures ≡ reader.old.failures) }
    ensures error { IfErr result (MayStopInLaxFrameLine R.remaining reader.old reader.new) }
    ensures cause { MatchResult result (λ _. reader.new.last_failure ≡ reader.old.last_failure)
        (TellsStreamCause reader.old.last_failure reader.new.last_failure) }
{
    let mut line = [0; MAX_LINE_BYTES];
    match read_line(reader, &mut line)? {
        Some(length) if is_lax_frame_line(&line[..length]) => Ok(true),
        Some(_) => Err(Y4mError::NoFrame),
        None => Ok(false),
    }
}

/// Parses a header line without its line feed, strict or lax. Returns the header, and whether the line is strict.
///
/// # Errors
///
/// The errors of [`parse_header`] for the strict line.
pub fn parse_lax_header(alloc: Global, line: &[u8]) -> Result<(StreamHeader, bool), HeaderError>
    ensures found { IfOk result (λ found. IsHeader (strict_line line.now) found.0) }
    ensures strict { IfOk result (λ found. IsTrue found.1 ↔ (strict_line line.now ≡ line.now)) }
    ensures refused { IfErr result (IsRefusedFor (strict_line line.now)) }
{
    let strict = strict_line(alloc, line)?;
    let header = parse_header(alloc, strict.as_slice())?;
    Ok((header, strict.as_slice() == line))
}

/// Returns the strict line that a header line means. `line` has no line feed. One carriage return at its end is removed,
/// several spaces become one, spaces at both ends are removed, and a frame rate of a single number above 0 gets the denominator
/// 1.
///
/// # Errors
///
/// [`AllocError`] if a memory allocation fails.
pub fn strict_line(alloc: Global, line: &[u8]) -> Result<Vec<u8>, AllocError>
    ensures { IfOk result (λ strict. strict.items ≡ strict_line line.now) }
{
    let pieces = pieces_of(alloc, without_return(line))?;
    joined(alloc, pieces.as_slice())
}

/// Joins the pieces that are not empty, each in its strict form, with one space between two.
fn joined(alloc: Global, pieces: &[&[u8]]) -> Result<Vec<u8>, AllocError>
    ensures { IfOk result (λ strict. strict.items ≡ joined (texts_of pieces.now)) }
{
    let mut strict = Vec::new(alloc);
    for &piece in pieces {
        if !piece.is_empty() {
            push_strict(&mut strict, piece)?;
        }
    }
    Ok(strict)
}

/// Returns whether `line`, which has no line feed, is a line in front of a frame, or becomes one if a carriage return at its
/// end is removed.
pub fn is_lax_frame_line(line: &[u8]) -> bool
    ensures { IsTrue result ↔ IsLaxFrameLine line.now }
{
    is_frame_line(without_return(line))
}

/// Returns the line without one carriage return at its end, if it has one.
fn without_return(line: &[u8]) -> &[u8]
    ensures { result.now ≡ without_return line.now }
{
    match line {
        [front @ .., b'\r'] => front,
        _ => line,
    }
}

/// Appends a piece in its strict form.
fn push_strict(strict: &mut Vec<u8>, piece: &[u8]) -> Result<(), AllocError>
    ensures { OnOk result (strict.new.items ≡ followed_by strict.old.items (full_rate piece.now)) }
{
    push_piece(strict, piece)?;
    if is_whole_rate(piece) {
        return strict.extend_from_slice(b":1");
    }
    Ok(())
}

/// Appends a piece, after a space if the line is not empty.
fn push_piece(strict: &mut Vec<u8>, piece: &[u8]) -> Result<(), AllocError>
    ensures { OnOk result (strict.new.items ≡ followed_by strict.old.items piece.now) }
{
    if strict.is_empty() {
        return strict.extend_from_slice(piece);
    }
    strict.push(b' ')?;
    strict.extend_from_slice(piece)
}

/// Returns whether a parameter is a frame rate of a single number.
fn is_whole_rate(piece: &[u8]) -> bool
    ensures { result ≡ is_whole_rate piece.now }
{
    match piece {
        [b'F', digits @ ..] => are_digits(digits),
        _ => false,
    }
}

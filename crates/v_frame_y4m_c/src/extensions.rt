//! The extensions of a header line, as the text that C holds: for each a space, the letter `X`, and its text.
ghost use Rattle.std.specs.Prelude.{◌≡◌, ◌≢◌, ◌↔◌, ◌++◌, ◌∷◌, map, IfErr, IfOk, IsTrue, OnOk};
ghost use Rattle.std.specs.List.{list_any};
ghost use Rattle.std.specs.Str.{bytes_eq};
ghost use Rattle.v_frame_y4m.specs.Ascii.{extension_letter, space};
ghost use Rattle.v_frame_y4m.specs.Header.{spelled as spelling, IsHeader};
ghost use Rattle.v_frame_y4m_c.specs.Extensions.{range_number, ended_by, range_text as text_of_range, AreRefused, HasExtensions, HasNoExtensions, IsBare, SaysExtensions};

use std::alloc::{AllocError, Global};
use v_frame::sequence::Sequence;
use v_frame_y4m::{Color, HeaderError, StreamHeader, parse_header};

/// Why a text does not state the extensions of a header.
#[derive(Drop)]
pub enum ExtensionFault {
    /// After a header line it states another parameter, or is not part of a header line.
    NotExtensions,
    /// The extensions state another range than the header.
    OtherRange,
    /// A request for memory failed.
    OutOfMemory,
}

/// Returns the number of the range that extensions state: 1 for `COLORRANGE=LIMITED`, 2 for `COLORRANGE=FULL`, and 0 if they
/// state neither of the two or both.
pub fn range_of(extensions: &[Sequence<u8>]) -> u32
    ensures { result ≡ range_number extensions.now }
{
    let is_limited = has(extensions, b"COLORRANGE=LIMITED");
    let is_full = has(extensions, b"COLORRANGE=FULL");
    match (is_limited, is_full) {
        (true, false) => 1,
        (false, true) => 2,
        _ => 0,
    }
}

/// Returns whether a text is one of the extensions.
fn has(extensions: &[Sequence<u8>], text: &[u8]) -> bool
    ensures { result ≡ list_any (λ extension. bytes_eq extension text.now) extensions.now }
{
    extensions
        .iter()
        .any(|extension| extension.as_slice() == text)
}

/// Returns the extensions as they stand in a header line: each after a space and the letter `X`.
///
/// # Errors
///
/// [`AllocError`] if a request for memory was refused.
pub fn spelled(alloc: Global, extensions: &[Sequence<u8>]) -> Result<Vec<u8>, AllocError>
    ensures { IfOk result (λ text. text.items
        ≡ spelling (map (λ extension. extension_letter ∷ extension) extensions.now)) }
{
    let mut text = Vec::new(alloc);
    for extension in extensions {
        push(&mut text, extension.as_slice())?;
    }
    Ok(text)
}

/// Adds a space, the letter `X` and an extension to a text.
fn push(text: &mut Vec<u8>, extension: &[u8]) -> Result<(), AllocError>
    ensures { OnOk result (text.new.items ≡ text.old.items ++ space ∷ (extension_letter ∷ extension.now)) }
{
    text.push(b' ')?;
    text.push(b'X')?;
    text.extend_from_slice(extension)
}

/// Returns the extensions of a header with the range of a number and the extensions of a text. They are those of the text if
/// these state the range; otherwise an extension that states it precedes them.
///
/// # Errors
///
/// [`ExtensionFault::NotExtensions`] if the text states anything but extensions, [`ExtensionFault::OtherRange`] if it states
/// another range, and [`ExtensionFault::OutOfMemory`] if a request for memory was refused.
pub fn with_range(
    alloc: Global,
    range: u32,
    text: &[u8],
) -> Result<Sequence<Sequence<u8>>, ExtensionFault>
    ensures found { IfOk result (HasExtensions range text.now) }
    ensures refused { IfErr result (HasNoExtensions range text.now) }
{
    let given = said(alloc, text)?;
    if range_of(given.as_slice()) == range {
        return Ok(given);
    }
    let mut more = Vec::new(alloc);
    if more.extend_from_slice(range_text(range)).is_err() || more.extend_from_slice(text).is_err() {
        return Err(ExtensionFault::OutOfMemory);
    }
    let both = said(alloc, more.as_slice())?;
    if range_of(both.as_slice()) == range {
        Ok(both)
    } else {
        Err(ExtensionFault::OtherRange)
    }
}

/// Returns the extension that states the range of a number, as it stands in a header line.
fn range_text(range: u32) -> &'static [u8]
    ensures { result.now ≡ text_of_range range }
{
    match range {
        1 => b" XCOLORRANGE=LIMITED",
        2 => b" XCOLORRANGE=FULL",
        _ => b"",
    }
}

/// Returns the extensions that a text states: the extensions of the header line that ends in the text.
fn said(alloc: Global, text: &[u8]) -> Result<Sequence<Sequence<u8>>, ExtensionFault>
    ensures found { IfOk result (SaysExtensions text.now) }
    ensures refused { IfErr result (AreRefused text.now) }
{
    let found = header_ended_by(alloc, text)?;
    if is_bare(&found) {
        Ok(found.extensions)
    } else {
        Err(ExtensionFault::NotExtensions)
    }
}

/// Parses a short header line that ends in a text.
fn header_ended_by(alloc: Global, text: &[u8]) -> Result<StreamHeader, ExtensionFault>
    ensures found { IfOk result (IsHeader (ended_by text.now)) }
    ensures refused { IfErr result (AreRefused text.now) }
{
    let line = line_ended_by(alloc, text).map_err(|_| ExtensionFault::OutOfMemory)?;
    match parse_header(alloc, line.as_slice()) {
        Ok(found) => Ok(found),
        Err(error) => Err(fault_of(error)),
    }
}

/// Returns a short header line that ends in a text.
fn line_ended_by(alloc: Global, text: &[u8]) -> Result<Vec<u8>, AllocError>
    ensures { IfOk result (λ line. line.items ≡ ended_by text.now) }
{
    let mut line = Vec::new(alloc);
    line.extend_from_slice(b"YUV4MPEG2 W30 H30")?;
    line.extend_from_slice(text)?;
    Ok(line)
}

/// Returns why a text states no extensions, if the header line that ends in the text is rejected for this reason.
fn fault_of(error: HeaderError) -> ExtensionFault
    ensures memory { error ≡ HeaderError.OutOfMemory → result ≡ ExtensionFault.OutOfMemory }
    ensures other { error ≢ HeaderError.OutOfMemory → result ≡ ExtensionFault.NotExtensions }
{
    match error {
        HeaderError::OutOfMemory => ExtensionFault::OutOfMemory,
        _ => ExtensionFault::NotExtensions,
    }
}

/// Returns whether a header states a picture of 30 by 30 pixels, extensions, and nothing else.
fn is_bare(header: &StreamHeader) -> bool
    ensures { IsTrue result ↔ IsBare header.now }
{
    header.width == 30
        && header.height == 30
        && header.frame_rate.is_none()
        && header.interlacing.is_none()
        && header.pixel_aspect.is_none()
        && header.color == Color::Unstated
        && header.is_writable()
}

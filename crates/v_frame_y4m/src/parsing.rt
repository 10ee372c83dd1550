//! Parses header lines.
ghost use Rattle.std.specs.Prelude.{◌≡◌, ◌<◌, ◌⊎◌, ◌↔◌, ◌∷◌, [], decimal, IfOk, IfErr, IsTrue};
ghost use Rattle.v_frame_y4m.specs.Ascii.{aspect_letter, color_letter, height_letter, interlacing_letter, rate_letter, width_letter};
ghost use Rattle.v_frame_y4m.specs.Color.{color_text, stated};
ghost use Rattle.v_frame_y4m.specs.Faults.{HasFault, IsRefusedFor};
ghost use Rattle.v_frame_y4m.specs.Header.{interlacing_text, of_letter, parameter_of, ratio_text, signature, texts_of, HasSize, IsHeader, Says};

use crate::color::Color;
use crate::error::HeaderError;
use crate::header::{Interlacing, Ratio, StreamHeader};
use crate::numbers::{are_digits, number, ratio};
use crate::parameters::{check_letters, extensions, malformed, pieces_of, unique_parameter};
use crate::text::Text;
use std::alloc::Global;

/// The first piece of each header line.
pub(crate) const SIGNATURE: &[u8] = b"YUV4MPEG2";

/// Parses a header line, given without its line feed. Parameters may be in any order. A number must be in the form in which it
/// is written: decimal digits without a leading zero.
///
/// # Errors
///
/// - [`HeaderError::NotAStream`] if the first piece of the line is not `YUV4MPEG2`.
/// - [`HeaderError::OutOfMemory`] if a memory allocation fails.
/// - Any other [`HeaderError`] if a parameter is missing, repeated or malformed.
pub fn parse_header(alloc: Global, line: &[u8]) -> Result<StreamHeader, HeaderError>
    ensures found { IfOk result (IsHeader line.now) }
    ensures refused { IfErr result (IsRefusedFor line.now) }
{
    let pieces = pieces_of(alloc, line)?;
    if pieces.is_empty() || !is_signature(pieces[0]) {
        return Err(HeaderError::NotAStream);
    }
    header_of(alloc, &pieces[1..])
}

/// Returns whether `piece` is the first piece of a header line.
fn is_signature(piece: &[u8]) -> bool
    ensures { IsTrue result ↔ (piece.now ≡ signature) }
{
    piece == SIGNATURE
}

/// Parses the parameters.
fn header_of(alloc: Global, parameters: &[&[u8]]) -> Result<StreamHeader, HeaderError>
    ensures says { IfOk result (Says (texts_of parameters.now)) }
    ensures size { IfOk result HasSize }
    ensures error { IfErr result (HasFault (texts_of parameters.now)) }
{
    check_letters(alloc, parameters)?;
    let (width, height) = size(alloc, parameters)?;
    let (frame_rate, pixel_aspect) = ratios(alloc, parameters)?;
    let interlacing = interlacing(alloc, parameters)?;
    let color = color(alloc, parameters)?;
    let extensions = extensions(alloc, parameters)?;
    Ok(StreamHeader {
        width,
        height,
        frame_rate,
        interlacing,
        pixel_aspect,
        color,
        extensions,
    })
}

/// Returns the width and the height.
fn size(alloc: Global, parameters: &[&[u8]]) -> Result<(usize, usize), HeaderError>
    ensures width { IfOk result (λ size. (of_letter width_letter (texts_of parameters.now)
        ≡ (width_letter ∷ decimal size.0) ∷ []) × (0 < size.0)) }
    ensures height { IfOk result (λ size. (of_letter height_letter (texts_of parameters.now)
        ≡ (height_letter ∷ decimal size.1) ∷ []) × (0 < size.1)) }
    ensures error { IfErr result (HasFault (texts_of parameters.now)) }
{
    Ok((
        length(alloc, parameters, b'W')?,
        length(alloc, parameters, b'H')?,
    ))
}

/// Returns the width or the height in pixels, depending on the letter.
fn length(alloc: Global, parameters: &[&[u8]], letter: u8) -> Result<usize, HeaderError>
    requires { (letter ≡ width_letter) ⊎ (letter ≡ height_letter) }
    ensures ok { IfOk result (λ n. (of_letter letter (texts_of parameters.now)
        ≡ (letter ∷ decimal n) ∷ []) × (0 < n)) }
    ensures error { IfErr result (HasFault (texts_of parameters.now)) }
{
    let Some((text, digits)) = unique_parameter(parameters, letter)? else {
        return Err(HeaderError::Missing(letter as char));
    };
    match number(digits) {
        Some(0) => Err(HeaderError::ZeroSize(letter as char)),
        Some(n) => Ok(n as usize),
        None if are_digits(digits) => { Err(HeaderError::SizeTooLarge(Text::new(alloc, text)?)) }
        None => Err(malformed(alloc, text)),
    }
}

/// Returns the frame rate and the pixel aspect ratio.
fn ratios(
    alloc: Global,
    parameters: &[&[u8]],
) -> Result<(Option<Ratio>, Option<Ratio>), HeaderError>
    ensures frame_rate { IfOk result (λ r. of_letter rate_letter (texts_of parameters.now)
        ≡ parameter_of rate_letter ratio_text r.0) }
    ensures pixel_aspect { IfOk result (λ r. of_letter aspect_letter (texts_of parameters.now)
        ≡ parameter_of aspect_letter ratio_text r.1) }
    ensures error { IfErr result (HasFault (texts_of parameters.now)) }
{
    Ok((
        rate(alloc, parameters, b'F')?,
        rate(alloc, parameters, b'A')?,
    ))
}

/// Returns the ratio of the parameter with this letter.
fn rate(alloc: Global, parameters: &[&[u8]], letter: u8) -> Result<Option<Ratio>, HeaderError>
    requires { (letter ≡ rate_letter) ⊎ (letter ≡ aspect_letter) }
    ensures ok { IfOk result (λ r. of_letter letter (texts_of parameters.now)
        ≡ parameter_of letter ratio_text r) }
    ensures error { IfErr result (HasFault (texts_of parameters.now)) }
{
    let Some((text, value)) = unique_parameter(parameters, letter)? else {
        return Ok(None);
    };
    match ratio(value) {
        Some(found) => Ok(Some(found)),
        None => Err(malformed(alloc, text)),
    }
}

/// Returns the interlacing.
fn interlacing(alloc: Global, parameters: &[&[u8]]) -> Result<Option<Interlacing>, HeaderError>
    ensures ok { IfOk result (λ i. of_letter interlacing_letter (texts_of parameters.now)
        ≡ parameter_of interlacing_letter interlacing_text i) }
    ensures error { IfErr result (HasFault (texts_of parameters.now)) }
{
    let Some((text, value)) = unique_parameter(parameters, b'I')? else {
        return Ok(None);
    };
    match Interlacing::parse(value) {
        Some(found) => Ok(Some(found)),
        None => Err(malformed(alloc, text)),
    }
}

/// Returns the color.
fn color(alloc: Global, parameters: &[&[u8]]) -> Result<Color, HeaderError>
    ensures ok { IfOk result (λ c. of_letter color_letter (texts_of parameters.now)
        ≡ parameter_of color_letter color_text (stated c)) }
    ensures error { IfErr result (HasFault (texts_of parameters.now)) }
{
    let Some((text, value)) = unique_parameter(parameters, b'C')? else {
        return Ok(Color::Unstated);
    };
    match Color::parse(value) {
        Some(found) => Ok(found),
        None => Err(HeaderError::UnknownColor(Text::new(alloc, text)?)),
    }
}

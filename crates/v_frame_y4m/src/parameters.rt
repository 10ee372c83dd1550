//! The pieces of a header line, and its parameters by letter.
ghost use Rattle.std.specs.Prelude.{List, ℕ, ◌≡◌, ◌↔◌, ◌∷◌, map, slice_index, All, Contains, IfOk, IfErr, IfSome, IsTrue};
ghost use Rattle.v_frame_y4m.specs.Ascii.{extension_letter};
ghost use Rattle.v_frame_y4m.specs.Faults.{HasFault, IsOnce};
ghost use Rattle.v_frame_y4m.specs.Header.{letters, of_letter, parameter_of, pieces, texts_of};

use crate::error::HeaderError;
use crate::text::Text;
use std::alloc::{AllocError, Global};
use v_frame::sequence::Sequence;

/// The letters of the parameters.
const LETTERS: [u8; 7] = *b"WHFIACX";

/// Splits a line at its spaces.
pub(crate) fn pieces_of(alloc: Global, line: &[u8]) -> Result<Vec<&[u8]>, AllocError>
    ensures { IfOk result (λ found. texts_of found.items ≡ pieces line.now) }
{
    line.split(|&byte| byte == b' ').collect(alloc)
}

/// Rejects parameters with unknown letters.
pub(crate) fn check_letters(alloc: Global, parameters: &[&[u8]]) -> Result<(), HeaderError>
    ensures ok { IfOk result (λ _.
        All (λ parameter. Contains letters (slice_index parameter 0)) (texts_of parameters.now)) }
    ensures error { IfErr result (HasFault (texts_of parameters.now)) }
{
    for &parameter in parameters {
        if !has_known_letter(parameter) {
            return Err(malformed(alloc, parameter));
        }
    }
    Ok(())
}

/// Returns the error for a malformed parameter. Returns the error for a failed memory allocation if the parameter cannot be
/// copied into the error.
pub(crate) fn malformed(alloc: Global, text: &[u8]) -> HeaderError
    ensures { (parameters : List (List ℕ))
        → HasFault parameters (HeaderError.Malformed (record { bytes = text.now }))
        → HasFault parameters result }
{
    match Text::new(alloc, text) {
        Ok(text) => HeaderError::Malformed(text),
        Err(_refused) => HeaderError::OutOfMemory,
    }
}

/// Returns whether the first byte is one of the known letters.
fn has_known_letter(parameter: &[u8]) -> bool
    ensures { IsTrue result ↔ Contains letters (slice_index parameter.now 0) }
{
    match parameter.first() {
        Some(letter) => LETTERS.contains(letter),
        None => false,
    }
}

/// Returns the parameter with this letter, and the text after the letter. The letter may occur only once.
pub(crate) fn unique_parameter<'a>(
    parameters: &[&'a [u8]],
    letter: u8,
) -> Result<Option<(&'a [u8], &'a [u8])>, HeaderError>
    requires { IsOnce letter }
    ensures ok { IfOk result (λ found. of_letter letter (texts_of parameters.now)
        ≡ parameter_of letter (λ p. p.1.now) found) }
    ensures whole { IfOk result (λ found. IfSome found (λ p. p.0.now ≡ letter ∷ p.1.now)) }
    ensures error { IfErr result (HasFault (texts_of parameters.now)) }
{
    let mut found = None;
    for &parameter in parameters {
        if let Some((&first, text)) = parameter.split_first() {
            if first == letter {
                if found.is_some() {
                    return Err(HeaderError::Duplicate(letter as char));
                }
                found = Some((parameter, text));
            }
        }
    }
    Ok(found)
}

/// Returns the texts after the letter of each `X`.
pub(crate) fn extensions(
    alloc: Global,
    parameters: &[&[u8]],
) -> Result<Sequence<Sequence<u8>>, AllocError>
    ensures { IfOk result (λ texts. of_letter extension_letter (texts_of parameters.now)
        ≡ map (λ text. extension_letter ∷ text) texts) }
{
    let mut texts = Vec::new(alloc);
    for &parameter in parameters {
        if let [b'X', text @ ..] = parameter {
            texts.push(Sequence::from_slice(alloc, text)?)?;
        }
    }
    Ok(texts.into())
}

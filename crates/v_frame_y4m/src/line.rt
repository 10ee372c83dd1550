//! Writes the header line.
ghost use Rattle.std.specs.Prelude.{◌≡◌, ◌++◌, ◌∷◌, [], decimal, map, IfOk, OnOk};
ghost use Rattle.v_frame_y4m.specs.Ascii.{color_letter, extension_letter, height_letter, interlacing_letter, line_feed, space, width_letter};
ghost use Rattle.v_frame_y4m.specs.Color.{color_text, stated};
ghost use Rattle.v_frame_y4m.specs.Header.{header_line, interlacing_text, parameter_of, parameters_of, ratio_text, spelled};

use crate::color::Color;
use crate::header::{Interlacing, Ratio, StreamHeader};
use crate::parsing::SIGNATURE;
use std::alloc::{AllocError, Global};
use v_frame::sequence::Sequence;

/// Returns the header line of `header` without its line feed: `YUV4MPEG2`, followed by W, H, F, I, A, C and each X, in the
/// order of ffmpeg.
///
/// # Errors
///
/// [`AllocError`] if a memory allocation fails.
pub fn header_line(alloc: Global, header: &StreamHeader) -> Result<Vec<u8>, AllocError>
    ensures { IfOk result (λ line. line.items ≡ header_line header.now) }
{
    let mut line = Vec::from_slice(alloc, SIGNATURE)?;
    push_parameters(alloc, &mut line, header)?;
    Ok(line)
}

/// Returns the header line of `header` with its line feed.
///
/// # Errors
///
/// [`AllocError`] if a memory allocation fails.
pub fn header_line_with_newline(alloc: Global, header: &StreamHeader) -> Result<Vec<u8>, AllocError>
    ensures { IfOk result (λ line. line.items ≡ header_line header.now ++ line_feed ∷ []) }
{
    let mut line = header_line(alloc, header)?;
    line.push(b'\n')?;
    Ok(line)
}

/// Appends the parameters.
fn push_parameters(
    alloc: Global,
    line: &mut Vec<u8>,
    header: &StreamHeader,
) -> Result<(), AllocError>
    ensures { OnOk result (line.new.items ≡ line.old.items ++ spelled (parameters_of header.now)) }
{
    push_size(alloc, line, header.width, header.height)?;
    push_ratio(alloc, line, b'F', header.frame_rate)?;
    push_interlacing(line, header.interlacing)?;
    push_ratio(alloc, line, b'A', header.pixel_aspect)?;
    push_color(line, header.color)?;
    push_extensions(line, header.extensions.as_slice())
}

/// Appends a space, a letter and a text.
fn push(line: &mut Vec<u8>, letter: u8, text: &[u8]) -> Result<(), AllocError>
    ensures { OnOk result (line.new.items ≡ line.old.items ++ space ∷ (letter ∷ text.now)) }
{
    line.push(b' ')?;
    line.push(letter)?;
    line.extend_from_slice(text)
}

/// Appends the width and the height.
fn push_size(
    alloc: Global,
    line: &mut Vec<u8>,
    width: usize,
    height: usize,
) -> Result<(), AllocError>
    ensures { OnOk result (line.new.items ≡ line.old.items
        ++ spelled ((width_letter ∷ decimal width) ∷ (height_letter ∷ decimal height) ∷ [])) }
{
    push(line, b'W', width.to_string(alloc)?.as_bytes())?;
    push(line, b'H', height.to_string(alloc)?.as_bytes())
}

/// Appends a ratio, if there is one.
fn push_ratio(
    alloc: Global,
    line: &mut Vec<u8>,
    letter: u8,
    ratio: Option<Ratio>,
) -> Result<(), AllocError>
    ensures { OnOk result (line.new.items ≡ line.old.items
        ++ spelled (parameter_of letter ratio_text ratio)) }
{
    match ratio {
        Some(ratio) => push(line, letter, ratio.text(alloc)?.as_bytes()),
        None => Ok(()),
    }
}

/// Appends the interlacing, if it is known.
fn push_interlacing(line: &mut Vec<u8>, interlacing: Option<Interlacing>) -> Result<(), AllocError>
    ensures { OnOk result (line.new.items ≡ line.old.items
        ++ spelled (parameter_of interlacing_letter interlacing_text interlacing)) }
{
    match interlacing {
        Some(interlacing) => push(line, b'I', interlacing.text().as_bytes()),
        None => Ok(()),
    }
}

/// Appends the color, unless it is unstated.
fn push_color(line: &mut Vec<u8>, color: Color) -> Result<(), AllocError>
    ensures { OnOk result (line.new.items ≡ line.old.items
        ++ spelled (parameter_of color_letter color_text (stated color))) }
{
    if color == Color::Unstated {
        return Ok(());
    }
    push(line, b'C', color.text().as_bytes())
}

/// Appends the extensions.
fn push_extensions(line: &mut Vec<u8>, extensions: &[Sequence<u8>]) -> Result<(), AllocError>
    ensures { OnOk result (line.new.items ≡ line.old.items
        ++ spelled (map (λ text. extension_letter ∷ text) extensions.now)) }
{
    for extension in extensions {
        push(line, b'X', extension.as_slice())?;
    }
    Ok(())
}

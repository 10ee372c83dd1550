//! The stream header with given numbers.
ghost use Rattle.std.specs.Prelude.{◌≡◌, ◌≢◌, IfErr, IfNone, IfOk, IfSome, MatchOption, Option};
ghost use Rattle.v_frame_y4m.specs.Color.{color_with, depth_of, siting_of, subsampling_of};
ghost use Rattle.v_frame_y4m.specs.declared.color.Color.{Color as TheColor};
ghost use Rattle.v_frame_y4m.specs.Header.{IsWritable};
ghost use Rattle.v_frame_y4m.specs.declared.color.ChromaSiting.{ChromaSiting as TheSiting};
ghost use Rattle.v_frame_y4m.specs.declared.header.Interlacing.{Interlacing as TheInterlacing};
ghost use Rattle.v_frame_y4m.specs.declared.header.Ratio.{Ratio as ARatio};
ghost use Rattle.v_frame_y4m.specs.declared.header.StreamHeader.{StreamHeader as TheHeader};
ghost use Rattle.v_frame_y4m_c.specs.Header.{interlacing_number, numbers_of, ratio_numbers, siting_number};
ghost use Rattle.v_frame_y4m_c.specs.Numbers.{HasNoHeader, IsHeaderOf};

use crate::header::{Header, Ratio};
use std::alloc::Global;
use v_frame::chroma::ChromaSubsampling;
use v_frame_slices::formats::format_of_number;
use v_frame_y4m::{ChromaSiting, Color, Interlacing, Ratio as TheRatio, StreamHeader};

/// Why no header with a line has the numbers.
#[derive(Drop)]
pub enum NumberFault {
    /// The width or the height is 0.
    ZeroSize,
    /// A number is not one of its enum, or a ratio that is not stated has numbers other than 0.
    NoSuchNumber,
    /// No color has the format, the bit depth and the siting.
    NoSuchColor,
}

impl Header {
    /// Returns the stream header with these numbers, without extensions.
    ///
    /// # Errors
    ///
    /// The first of the faults that holds.
    pub fn stream_header(&self, alloc: Global) -> Result<StreamHeader, NumberFault>
        ensures found { IfOk result (IsHeaderOf self.now) }
        ensures refused { IfErr result (HasNoHeader self.now) }
        ensures none { IfErr result (λ _. (h : TheHeader) → IsWritable h
            → numbers_of h ≢ self.now) }
    {
        if self.width == 0 || self.height == 0 {
            return Err(NumberFault::ZeroSize);
        }
        let Some(frame_rate) = ratio_numbered(&self.frame_rate) else {
            return Err(NumberFault::NoSuchNumber);
        };
        let Some(pixel_aspect) = ratio_numbered(&self.pixel_aspect) else {
            return Err(NumberFault::NoSuchNumber);
        };
        let Some(interlacing) = interlacing_numbered(self.interlacing) else {
            return Err(NumberFault::NoSuchNumber);
        };
        let Some(format) = format_of_number(self.format) else {
            return Err(NumberFault::NoSuchNumber);
        };
        let Some(siting) = siting_numbered(self.siting) else {
            return Err(NumberFault::NoSuchNumber);
        };
        if self.range > 2 {
            return Err(NumberFault::NoSuchNumber);
        }
        let Some(color) = color_of(format, self.bit_depth, siting) else {
            return Err(NumberFault::NoSuchColor);
        };
        Ok(StreamHeader {
            width: self.width,
            height: self.height,
            frame_rate,
            interlacing,
            pixel_aspect,
            color,
            extensions: Vec::new(alloc).into(),
        })
    }
}

/// Returns the color of a format, a bit depth and a siting.
fn color_of(
    format: ChromaSubsampling,
    bit_depth: u32,
    siting: Option<ChromaSiting>,
) -> Option<Color>
    ensures value { result ≡ color_with format bit_depth siting }
    ensures found { IfSome result (λ c. (subsampling_of c ≡ format)
        × ((depth_of c ≡ bit_depth) × (siting_of c ≡ siting))) }
    ensures none { IfNone result ((c : TheColor) → subsampling_of c ≡ format
        → depth_of c ≡ bit_depth → siting_of c ≢ siting) }
{
    match u8::try_from(bit_depth) {
        Ok(bit_depth) => Color::new(format, bit_depth, siting),
        Err(_) => None,
    }
}

/// Returns the ratio of these numbers.
fn ratio_numbered(ratio: &Ratio) -> Option<Option<TheRatio>>
    ensures { MatchOption result ((r : Option ARatio) → ratio_numbers r ≢ ratio.now)
        (λ r. ratio_numbers r ≡ ratio.now) }
{
    match ratio.stated {
        0 if ratio.numerator == 0 && ratio.denominator == 0 => Some(None),
        1 => Some(Some(TheRatio {
            numerator: ratio.numerator,
            denominator: ratio.denominator,
        })),
        _ => None,
    }
}

/// Returns the siting of a number.
fn siting_numbered(number: u32) -> Option<Option<ChromaSiting>>
    ensures { MatchOption result ((s : Option TheSiting) → siting_number s ≢ number)
        (λ s. siting_number s ≡ number) }
{
    match number {
        0 => Some(None),
        1 => Some(Some(ChromaSiting::Center)),
        2 => Some(Some(ChromaSiting::Left)),
        3 => Some(Some(ChromaSiting::Alternating)),
        _ => None,
    }
}

/// Returns the way of interlacing of a number.
fn interlacing_numbered(number: u32) -> Option<Option<Interlacing>>
    ensures { MatchOption result ((i : Option TheInterlacing) → interlacing_number i ≢ number)
        (λ i. interlacing_number i ≡ number) }
{
    match number {
        0 => Some(None),
        1 => Some(Some(Interlacing::Progressive)),
        2 => Some(Some(Interlacing::TopFirst)),
        3 => Some(Some(Interlacing::BottomFirst)),
        4 => Some(Some(Interlacing::Mixed)),
        5 => Some(Some(Interlacing::Unknown)),
        _ => None,
    }
}

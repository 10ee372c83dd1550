//! A header in numbers. Any bytes in these structs are a valid value.
ghost use Rattle.std.specs.Prelude.{◌≡◌};
ghost use Rattle.v_frame_y4m_c.specs.Header.{interlacing_number, numbers_of, ratio_numbers, siting_number};

use crate::extensions::range_of;
use v_frame_slices::formats::number_of_format;
use v_frame_y4m::{ChromaSiting, Interlacing, Ratio as TheRatio, StreamHeader};

/// Two numbers if `stated` is 1. Otherwise all three are 0.
#[derive(Drop)]
#[repr(C)]
pub struct Ratio {
    pub numerator: u64,
    pub denominator: u64,
    pub stated: u32,
}

/// What a header line states.
#[derive(Drop)]
#[repr(C)]
pub struct Header {
    pub width: usize,
    pub height: usize,
    pub frame_rate: Ratio,
    pub pixel_aspect: Ratio,
    pub format: u32,
    pub bit_depth: u32,
    pub siting: u32,
    pub interlacing: u32,
    pub range: u32,
}

impl Header {
    /// Returns the numbers of a header.
    pub fn of(header: &StreamHeader) -> Header
        ensures { result ≡ numbers_of header.now }
    {
        Header {
            width: header.width,
            height: header.height,
            frame_rate: ratio_of(header.frame_rate),
            pixel_aspect: ratio_of(header.pixel_aspect),
            format: number_of_format(header.color.subsampling()),
            bit_depth: u32::from(header.color.bit_depth()),
            siting: siting_of(header.color.siting()),
            interlacing: interlacing_of(header.interlacing),
            range: range_of(header.extensions.as_slice()),
        }
    }
}

/// Returns a ratio in numbers.
fn ratio_of(ratio: Option<TheRatio>) -> Ratio
    ensures { result ≡ ratio_numbers ratio }
{
    match ratio {
        Some(ratio) => Ratio {
            numerator: ratio.numerator,
            denominator: ratio.denominator,
            stated: 1,
        },
        None => Ratio {
            numerator: 0,
            denominator: 0,
            stated: 0,
        },
    }
}

/// Returns the number of a siting.
fn siting_of(siting: Option<ChromaSiting>) -> u32
    ensures { result ≡ siting_number siting }
{
    match siting {
        None => 0,
        Some(ChromaSiting::Center) => 1,
        Some(ChromaSiting::Left) => 2,
        Some(ChromaSiting::Alternating) => 3,
    }
}

/// Returns the number of a way of interlacing.
fn interlacing_of(interlacing: Option<Interlacing>) -> u32
    ensures { result ≡ interlacing_number interlacing }
{
    match interlacing {
        None => 0,
        Some(Interlacing::Progressive) => 1,
        Some(Interlacing::TopFirst) => 2,
        Some(Interlacing::BottomFirst) => 3,
        Some(Interlacing::Mixed) => 4,
        Some(Interlacing::Unknown) => 5,
    }
}

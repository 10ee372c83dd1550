//! Reports on the samples of one stream: statistics, histograms and checksums.
ghost use Rattle.std.specs.Prelude.{◌≡◌, ◌++◌, ◌∷◌, ◌<◌, [], string_bytes, OnOk};
ghost use Rattle.std.specs.Char.{digit_char};
ghost use Rattle.yuv_reports.specs.Histograms.{histogram_row, histogram_rows};
ghost use Rattle.yuv_reports.specs.Samples.{above_said, checksum_word, checksums_line, chroma_words, statistics_end, statistics_front, sum_words, AppendsStatistics};

use crate::planes::push_number;
use std::alloc::{AllocError, Global};
use v_frame_formats::Component;

/// Statistics of the samples of a plane over all frames.
#[derive(Clone, Copy)]
pub struct SampleStatistics {
    /// The plane.
    pub plane: Component,
    /// The least value.
    pub minimum: u16,
    /// The greatest value.
    pub maximum: u16,
    /// The mean of the values.
    pub mean: f64,
    /// The number of samples outside the nominal range, without samples above `most`.
    pub outside: u64,
    /// The greatest value of the bit depth.
    pub most: u16,
    /// The number of samples above `most`.
    pub above: u64,
}

/// Appends the line of a plane, with its mean in two decimals.
///
/// # Errors
///
/// Returns [`AllocError`] if there is not enough memory for the text.
pub fn push_statistics(
    alloc: Global,
    text: &mut String,
    found: &SampleStatistics,
) -> Result<(), AllocError>
    ensures { OnOk result (AppendsStatistics (string_bytes text.old) (string_bytes text.new)
        found.now) }
{
    // The mean is formatted in a separate text, because contracts do not describe a text after a float was written to it.
    let mean = found.mean;
    let mean = format!(in alloc; "{mean:.2}")?;
    push_extremes(text, found)?;
    text.push_str(mean.as_str())?;
    push_outside(text, found)
}

/// Appends the part of the line before the mean.
fn push_extremes(text: &mut String, found: &SampleStatistics) -> Result<(), AllocError>
    ensures { OnOk result (string_bytes text.new
        ≡ string_bytes text.old ++ statistics_front found.now) }
{
    let plane = found.plane.letter();
    let (minimum, maximum) = (found.minimum, found.maximum);
    write!(text, "{plane}: minimum {minimum}, maximum {maximum}, mean ")
}

/// Appends the part of the line after the mean.
fn push_outside(text: &mut String, found: &SampleStatistics) -> Result<(), AllocError>
    ensures { OnOk result (string_bytes text.new
        ≡ string_bytes text.old ++ statistics_end found.now) }
{
    let outside = found.outside;
    write!(text, ", outside the nominal range {outside}")?;
    push_above(text, found.most, found.above)?;
    text.push('\n')
}

/// Appends the number of samples above the greatest value of the bit depth, if there are any.
fn push_above(text: &mut String, most: u16, above: u64) -> Result<(), AllocError>
    ensures { OnOk result (string_bytes text.new
        ≡ string_bytes text.old ++ above_said most above) }
{
    if above == 0 {
        return Ok(());
    }
    write!(text, ", above {most}: {above}")
}

/// Appends a row `plane,value,count` for each value that occurs.
///
/// # Errors
///
/// Returns [`AllocError`] if there is not enough memory for the text.
pub fn push_histogram(text: &mut String, plane: Component, counts: &[u64]) -> Result<(), AllocError>
    ensures { OnOk result (string_bytes text.new
        ≡ string_bytes text.old ++ histogram_rows plane 0 counts.now) }
{
    for value in 0..counts.len() {
        push_row(text, plane, value, counts[value])?;
    }
    Ok(())
}

/// Appends the row of a value, if it occurs.
fn push_row(text: &mut String, plane: Component, value: usize, count: u64) -> Result<(), AllocError>
    ensures { OnOk result (string_bytes text.new
        ≡ string_bytes text.old ++ histogram_row plane value count) }
{
    if count == 0 {
        return Ok(());
    }
    let plane = plane.letter();
    writeln!(text, "{plane},{value},{count}")
}

/// The CRC-32 of the bytes of a frame, or of each plane.
#[derive(Clone, Copy)]
pub enum Checksums {
    /// The checksum of the frame.
    Frame(u32),
    /// The checksums of Y, and of U and V if the frame has chroma.
    Planes(u32, Option<(u32, u32)>),
}

/// Appends the line of a frame: its number, counted from 1, and its checksums of eight hexadecimal digits.
///
/// # Errors
///
/// Returns [`AllocError`] if there is not enough memory for the text.
pub fn push_checksums(text: &mut String, frame: u64, sums: Checksums) -> Result<(), AllocError>
    ensures { OnOk result (string_bytes text.new
        ≡ string_bytes text.old ++ checksums_line frame sums) }
{
    push_number(text, "", u128::from(frame), "")?;
    push_sums(text, sums)?;
    text.push('\n')
}

/// Appends checksums, each after a space.
fn push_sums(text: &mut String, sums: Checksums) -> Result<(), AllocError>
    ensures { OnOk result (string_bytes text.new ≡ string_bytes text.old ++ sum_words sums) }
{
    match sums {
        Checksums::Frame(sum) => push_checksum(text, sum),
        Checksums::Planes(y, chroma) => {
            push_checksum(text, y)?;
            push_chroma(text, chroma)
        }
    }
}

/// Appends the checksums of U and V, if there are any.
fn push_chroma(text: &mut String, sums: Option<(u32, u32)>) -> Result<(), AllocError>
    ensures { OnOk result (string_bytes text.new
        ≡ string_bytes text.old ++ chroma_words sums) }
{
    match sums {
        Some(sums) => {
            push_checksum(text, sums.0)?;
            push_checksum(text, sums.1)
        }
        None => Ok(()),
    }
}

/// The place values of the eight hexadecimal digits of a number of 32 bits, from the first digit to the last.
const PLACES: [u32; 8] = [
    0x1000_0000,
    0x100_0000,
    0x10_0000,
    0x1_0000,
    0x1000,
    0x100,
    0x10,
    1,
];

/// Appends a space and a checksum.
fn push_checksum(text: &mut String, sum: u32) -> Result<(), AllocError>
    ensures { OnOk result (string_bytes text.new ≡ string_bytes text.old ++ checksum_word sum) }
{
    text.push(' ')?;
    for place in 0..8 {
        push_digit(text, sum / PLACES[place] % 16)?;
    }
    Ok(())
}

/// Appends a hexadecimal digit.
fn push_digit(text: &mut String, digit: u32) -> Result<(), AllocError>
    requires { digit < 16 }
    ensures { OnOk result (string_bytes text.new
        ≡ string_bytes text.old ++ (digit_char digit ∷ [])) }
{
    match char::from_digit(digit, 16) {
        Some(letter) => text.push(letter),
        None => unreachable!(),
    }
}

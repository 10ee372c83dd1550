//! The part of a text that makes it no format of headerless video, for messages.

use crate::values::{number, number_before, raw_format};
use std::fmt;

/// The first wrong part of a text that is not `WIDTHxHEIGHT:FORMAT` or `WIDTHxHEIGHT:FORMAT@RATE`.
#[derive(Clone, Copy)]
pub(crate) enum RawPart<'a> {
    /// The text does not begin with two numbers that are separated by an `x`.
    Size,
    /// The width or the height is 0.
    NoPixels,
    /// No colon and format follow the size.
    NoFormat,
    /// This is not the name of a format.
    Format(&'a str),
    /// This is not a frame rate above 0.
    Rate(&'a str),
}

/// Returns the first wrong part of a text that does not describe headerless video.
pub(crate) fn raw_part(text: &str) -> RawPart<'_> {
    let Some((width, rest)) = number_before(text, 'x') else {
        return RawPart::Size;
    };
    let Some((height, rest)) = number_before(rest, ':') else {
        if number(rest).is_some() {
            return RawPart::NoFormat;
        }
        return RawPart::Size;
    };
    if width == 0 || height == 0 {
        return RawPart::NoPixels;
    }
    match rest.split_once('@') {
        Some((name, rate)) if raw_format(name).is_some() => RawPart::Rate(rate),
        Some((name, _)) => RawPart::Format(name),
        None => RawPart::Format(rest),
    }
}

impl fmt::Display for RawPart<'_> {
    fn fmt<W: fmt::Write>(&self, f: &mut fmt::Formatter<W>) -> fmt::Result {
        match self {
            RawPart::Size => f.write_str("it does not begin with WIDTHxHEIGHT"),
            RawPart::NoPixels => f.write_str("the width or the height is 0"),
            RawPart::NoFormat => f.write_str("the format is missing"),
            RawPart::Format(name) => write!(f, "unknown format '{name}'; see 'yuv help formats'"),
            RawPart::Rate(rate) => write!(
                f,
                "invalid rate '{rate}'; use a rate above 0, as 25, 30000:1001 or 30000/1001"
            ),
        }
    }
}

//! The values of options, and how their texts are read.
ghost use Rattle.std.specs.Prelude.{List, ℕ, ◌≡◌, ◌≢◌, ◌⊎◌, ◌↔◌, ◌^◌, ◌<◌, ◌∷◌, ◌++◌, Bool, decimal, length, slice_index, IsTrue, MatchOption, Option};
ghost use Rattle.std.specs.Int.{IsInRange};
ghost use Rattle.v_frame_y4m.specs.declared.header.Ratio.{Ratio as TheRatio};
ghost use Rattle.v_frame_formats.specs.Formats.{IsFormat};
ghost use Rattle.yuv_words.specs.Values.{IsColorRange, IsGain, IsMatrix, IsNumber, IsPlane, IsRatio, IsRatioWith, IsRaw, IsRectangle, NamesRaw, SpellsFormat, SpellsRaw, SpellsRectangle};
ghost use Rattle.yuv_words.specs.declared.command.RawVideo.{RawVideo as TheRaw};
ghost use Rattle.v_frame_formats.specs.declared.rectangle.Rectangle.{Rectangle as TheRectangle};
ghost use Rattle.v_frame_formats.specs.declared.format.VideoFormat.{VideoFormat as TheFormat};

use crate::command::RawVideo;
use v_frame_formats::{Component, Rectangle, VideoFormat};
use v_frame_rgb::{ColorRange, Standard};
use v_frame_y4m::Ratio;

/// A type of option values.
pub(crate) trait OptionValue: Copy {
    // The text spells the value.
    ghost Spells: { Self → List ℕ → Type 0 };

    /// Returns the value that a text spells, or `None` if it spells none.
    fn spelled(text: &str) -> Option<Self>
        ensures { MatchOption result ((v : Self) → ¬ (Spells v text.now)) (λ v. Spells v text.now) };
}

impl OptionValue for u64 {
    ghost Spells = { IsNumber };

    fn spelled(text: &str) -> Option<u64> {
        number(text)
    }
}

/// Returns the number that a text spells, or `None` if it spells none: decimal digits without a sign and without leading zeros.
pub(crate) fn number(text: &str) -> Option<u64>
    ensures { MatchOption result ((n : ℕ) → ¬ (IsNumber n text.now)) (λ n. IsNumber n text.now) }
{
    if !has_canonical_start(text.as_bytes()) {
        return None;
    }
    match text.parse() {
        Ok(n) => Some(n),
        Err(_) => None,
    }
}

/// Returns whether digits begin without a plus sign and without a leading zero.
fn has_canonical_start(digits: &[u8]) -> bool
    ensures { IsTrue result ↔ ((slice_index digits.now 0 ≢ 43)
        × (slice_index digits.now 0 ≡ 48 → length digits.now ≡ 1)) }
{
    match digits.first() {
        Some(b'+') => false,
        Some(b'0') => digits.len() == 1,
        _ => true,
    }
}

impl OptionValue for u16 {
    ghost Spells = { IsGain };

    fn spelled(text: &str) -> Option<u16> {
        let n = number(text)?;
        if n == 0 || n > 65535 {
            return None;
        }
        Some(n as u16)
    }
}

/// Splits a text at the first `mark`. Returns the number before it and the text after it, or `None` if there is no mark or no
/// number before it.
pub(crate) fn number_before(text: &str, mark: char) -> Option<(u64, &str)>
    requires ascii { mark < 128 }
    requires apart { ¬ (IsInRange 48 57 mark) }
    ensures { MatchOption result
        ((n : ℕ) (rest : List ℕ) → n < 2 ^ 64 → text.now ≢ decimal n ++ mark ∷ rest)
        (λ cut. (text.now ≡ decimal cut.0 ++ mark ∷ cut.1.now) × (cut.0 < 2 ^ 64)) }
{
    match text.split_once(mark) {
        Some((digits, rest)) => match number(digits) {
            Some(n) => Some((n, rest)),
            None => None,
        },
        None => None,
    }
}

impl OptionValue for Ratio {
    ghost Spells = { IsRatio };

    fn spelled(text: &str) -> Option<Ratio> {
        if let Some(ratio) = ratio_with(text, ':') {
            return Some(ratio);
        }
        if let Some(ratio) = ratio_with(text, '/') {
            return Some(ratio);
        }
        let numerator = number(text)?;
        if numerator == 0 {
            return None;
        }
        Some(Ratio {
            numerator,
            denominator: 1,
        })
    }
}

/// Returns the ratio of two numbers above 0 that are separated by `mark`, or `None` if the text is no such ratio.
fn ratio_with(text: &str, mark: char) -> Option<Ratio>
    requires ascii { mark < 128 }
    requires apart { ¬ (IsInRange 48 57 mark) }
    ensures { MatchOption result ((r : TheRatio) → ¬ (IsRatioWith mark r text.now))
        (λ r. IsRatioWith mark r text.now) }
{
    let (numerator, rest) = number_before(text, mark)?;
    let denominator = number(rest)?;
    if numerator == 0 || denominator == 0 {
        return None;
    }
    Some(Ratio {
        numerator,
        denominator,
    })
}

impl OptionValue for Rectangle {
    ghost Spells = { IsRectangle };

    fn spelled(text: &str) -> Option<Rectangle> {
        let value = rectangle(text)?;
        if lacks_pixels(value.width, value.height) {
            return None;
        }
        Some(value)
    }
}

/// Returns whether a width or a height is 0.
fn lacks_pixels(width: usize, height: usize) -> bool
    ensures { IsTrue result ↔ ((width ≡ 0) ⊎ (height ≡ 0)) }
{
    width == 0 || height == 0
}

/// Returns the rectangle that a text spells as four numbers separated by commas, or `None` if it spells none.
fn rectangle(text: &str) -> Option<Rectangle>
    ensures { MatchOption result ((r : TheRectangle) → ¬ (SpellsRectangle r text.now))
        (λ r. SpellsRectangle r text.now) }
{
    let (x, rest) = number_before(text, ',')?;
    let (y, rest) = number_before(rest, ',')?;
    let (width, rest) = number_before(rest, ',')?;
    let height = number(rest)?;
    Some(Rectangle {
        x: x as usize,
        y: y as usize,
        width: width as usize,
        height: height as usize,
    })
}

impl OptionValue for RawVideo {
    ghost Spells = { IsRaw };

    fn spelled(text: &str) -> Option<RawVideo> {
        let value = raw_video(text)?;
        if lacks_pixels(value.width, value.height) {
            return None;
        }
        Some(value)
    }
}

/// Returns the headerless video that a text describes, or `None` if it describes none. Its size may be 0.
fn raw_video(text: &str) -> Option<RawVideo>
    ensures { MatchOption result ((raw : TheRaw) → ¬ (SpellsRaw raw text.now))
        (λ raw. SpellsRaw raw text.now) }
{
    let (width, rest) = number_before(text, 'x')?;
    let (height, rest) = number_before(rest, ':')?;
    let (format, full_range, rate) = format_and_rate(rest)?;
    Some(RawVideo {
        width: width as usize,
        height: height as usize,
        format,
        full_range,
        rate,
    })
}

/// Returns the format, whether its samples have full range, and the rate after an at sign, if there is one. Returns `None` if a
/// part is wrong.
fn format_and_rate(text: &str) -> Option<(VideoFormat, bool, Option<Ratio>)>
    ensures { MatchOption result
        ((format : TheFormat) (full : Bool) (rate : Option TheRatio) → ¬ (SpellsFormat format full rate text.now))
        (λ found. SpellsFormat found.0 found.1 found.2 text.now) }
{
    match text.split_once('@') {
        Some((name, rate)) => {
            let (format, full_range) = raw_format(name)?;
            let rate = Ratio::spelled(rate)?;
            Some((format, full_range, Some(rate)))
        }
        None => {
            let (format, full_range) = raw_format(text)?;
            Some((format, full_range, None))
        }
    }
}

/// Returns the format with this name, and whether its samples have full range, or `None` if no format has the name.
pub(crate) fn raw_format(name: &str) -> Option<(VideoFormat, bool)>
    ensures { MatchOption result ((format : TheFormat) (full : Bool) → ¬ (NamesRaw format full name.now))
        (λ found. NamesRaw found.0 found.1 name.now) }
{
    if let Some(format) = VideoFormat::named(name) {
        return Some((format, false));
    }
    match VideoFormat::full_range_named(name) {
        Some(format) => Some((format, true)),
        None => None,
    }
}

impl OptionValue for Standard {
    ghost Spells = { IsMatrix };

    fn spelled(text: &str) -> Option<Standard> {
        match text {
            "bt601" => Some(Standard::Bt601),
            "bt709" => Some(Standard::Bt709),
            "bt2020" => Some(Standard::Bt2020),
            _ => None,
        }
    }
}

impl OptionValue for ColorRange {
    ghost Spells = { IsColorRange };

    fn spelled(text: &str) -> Option<ColorRange> {
        match text {
            "limited" => Some(ColorRange::Limited),
            "full" => Some(ColorRange::Full),
            _ => None,
        }
    }
}

impl OptionValue for Component {
    ghost Spells = { IsPlane };

    fn spelled(text: &str) -> Option<Component> {
        match text {
            "y" => Some(Component::Y),
            "u" => Some(Component::U),
            "v" => Some(Component::V),
            _ => None,
        }
    }
}

impl OptionValue for VideoFormat {
    ghost Spells = { IsFormat };

    fn spelled(text: &str) -> Option<VideoFormat> {
        VideoFormat::named(text)
    }
}

//! Numbers in a header: decimal digits without a leading zero.
ghost use Rattle.std.specs.Prelude.{ℕ, ◌≡◌, ◌≢◌, ◌↔◌, ◌^◌, ◌<◌, decimal, length, slice_index, IsTrue, MatchOption};
ghost use Rattle.v_frame_y4m.specs.Ascii.{digit_zero, plus_sign};
ghost use Rattle.v_frame_y4m.specs.Faults.{AreDigits};
ghost use Rattle.v_frame_y4m.specs.Header.{ratio_text, FitsRatio};
ghost use Rattle.v_frame_y4m.specs.declared.header.Ratio.{Ratio as TheRatio};

use crate::header::Ratio;
use std::str;

/// Parses a number. Returns `None` unless `digits` is the text that would be written for that number.
pub(crate) fn number(digits: &[u8]) -> Option<u64>
    ensures { MatchOption result ((n : ℕ) → n < 2 ^ 64 → digits.now ≢ decimal n)
        (λ n. digits.now ≡ decimal n) }
{
    match str::from_utf8(digits) {
        Ok(digits) => number_of(digits),
        Err(_) => None,
    }
}

/// Parses a number, given as text.
fn number_of(digits: &str) -> Option<u64>
    ensures { MatchOption result ((n : ℕ) → n < 2 ^ 64 → digits.now ≢ decimal n)
        (λ n. digits.now ≡ decimal n) }
{
    if !has_canonical_start(digits.as_bytes()) {
        return None;
    }
    match digits.parse() {
        Ok(n) => Some(n),
        Err(_) => None,
    }
}

/// Returns whether the digits begin like those of a number that is written: without a plus sign, and without a leading zero.
fn has_canonical_start(digits: &[u8]) -> bool
    ensures { IsTrue result ↔ ((slice_index digits.now 0 ≢ plus_sign)
        × (slice_index digits.now 0 ≡ digit_zero → length digits.now ≡ 1)) }
{
    match digits.first() {
        Some(b'+') => false,
        Some(b'0') => digits.len() == 1,
        _ => true,
    }
}

/// Returns whether the bytes are ASCII digits without a leading zero.
pub(crate) fn are_digits(text: &[u8]) -> bool
    ensures { IsTrue result ↔ AreDigits text.now }
{
    begins_above_zero(text) && text.iter().all(|&byte| byte >= b'0' && byte <= b'9')
}

/// Returns whether the first byte is greater than the byte of `0`.
fn begins_above_zero(text: &[u8]) -> bool
    ensures { IsTrue result ↔ (digit_zero < slice_index text.now 0) }
{
    match text.first() {
        Some(&first) => first > b'0',
        None => false,
    }
}

/// Parses two numbers with a colon between them.
pub(crate) fn ratio(text: &[u8]) -> Option<Ratio>
    ensures { MatchOption result ((r : TheRatio) → FitsRatio r → text.now ≢ ratio_text r)
        (λ r. text.now ≡ ratio_text r) }
{
    match str::from_utf8(text) {
        Ok(text) => ratio_of(text),
        Err(_) => None,
    }
}

/// Parses two numbers with a colon between them, given as text.
fn ratio_of(text: &str) -> Option<Ratio>
    ensures { MatchOption result ((r : TheRatio) → FitsRatio r → text.now ≢ ratio_text r)
        (λ r. text.now ≡ ratio_text r) }
{
    match text.split_once(':') {
        Some((numerator, denominator)) => ratio_between(numerator, denominator),
        None => None,
    }
}

/// Parses the two numbers of a ratio.
fn ratio_between(numerator: &str, denominator: &str) -> Option<Ratio>
    ensures { MatchOption result ((r : TheRatio) → FitsRatio r → numerator.now ≡ decimal r.numerator
        → denominator.now ≢ decimal r.denominator)
        (λ r. (numerator.now ≡ decimal r.numerator) × (denominator.now ≡ decimal r.denominator)) }
{
    let numerator = number_of(numerator)?;
    let denominator = number_of(denominator)?;
    Some(Ratio {
        numerator,
        denominator,
    })
}

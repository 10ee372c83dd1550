//! The labels of the axis of numbers, as exact decimals.
ghost use Rattle.std.specs.Prelude.{◌≡◌, ◌*◌, ◌/◌, ◌++◌, ◌<◌, ◌≤◌, ◌^◌, OnOk, codes, decimal, string_bytes};
ghost use Rattle.std.specs.Fmt.{sign_text};
ghost use Rattle.v_frame_chart.specs.Scales.{exponent_text, label_of, last_digits, size_text};

use crate::scale::Power;
use std::alloc::AllocError;

/// Appends a whole number times a power of ten.
#[tactic(auto, using(crate::proofs::Appended::joins), unfolding(crate::specs::Scales::label_of))]
pub(crate) fn push_label(text: &mut String, number: i64, power: Power) -> Result<(), AllocError>
    ensures { OnOk result (string_bytes text.new ≡ string_bytes text.old ++ label_of number power) }
{
    push_sign(text, number.is_negative())?;
    push_size(text, number.unsigned_abs(), power)?;
    Ok(())
}

/// Appends a minus sign if `negative` is true.
fn push_sign(text: &mut String, negative: bool) -> Result<(), AllocError>
    ensures { OnOk result (string_bytes text.new ≡ string_bytes text.old ++ sign_text negative) }
{
    if negative { text.push_str("-") } else { Ok(()) }
}

/// Appends a size times a power of ten: with a decimal point if the power is small, and otherwise with an exponent.
#[tactic(auto, unfolding(crate::specs::Scales::size_text))]
fn push_size(text: &mut String, size: u64, power: Power) -> Result<(), AllocError>
    ensures { OnOk result (string_bytes text.new ≡ string_bytes text.old ++ size_text size power) }
{
    match power {
        Power::Times(p) => {
            if p <= 9 {
                push_multiplied(text, size, p)
            } else {
                push_exponent(text, size, "e", p)
            }
        }
        Power::Over(p) => {
            if p <= 9 {
                push_divided(text, size, p)
            } else {
                push_exponent(text, size, "e-", p)
            }
        }
    }
}

/// Appends a size with an exponent, or `0` if the size is 0.
fn push_exponent(text: &mut String, size: u64, letters: &str, p: u32) -> Result<(), AllocError>
    ensures { OnOk result (string_bytes text.new ≡ string_bytes text.old
        ++ exponent_text size letters.now p) }
{
    if size == 0 {
        text.push_str("0")
    } else {
        write!(text, "{size}{letters}{p}")
    }
}

/// Appends a size times a small power of ten.
fn push_multiplied(text: &mut String, size: u64, p: u32) -> Result<(), AllocError>
    requires { p ≤ 9 }
    ensures { OnOk result (string_bytes text.new ≡ string_bytes text.old ++ decimal (size * 10 ^ p)) }
{
    let whole = u128::from(size) * u128::from(tens(p));
    write!(text, "{whole}")
}

/// Appends a size divided by a small power of ten.
#[tactic(auto, using(crate::proofs::Appended::joins))]
fn push_divided(text: &mut String, size: u64, p: u32) -> Result<(), AllocError>
    requires { p ≤ 9 }
    ensures { OnOk result (string_bytes text.new ≡ string_bytes text.old
        ++ (decimal (size / 10 ^ p) ++ (codes "." ++ last_digits size p))) }
{
    let whole = size / tens(p);
    write!(text, "{whole}.")?;
    push_last_digits(text, size, p)?;
    Ok(())
}

/// Appends the last `count` digits of a number.
#[tactic(auto, unfolding(crate::specs::Scales::last_digits))]
fn push_last_digits(text: &mut String, number: u64, count: u32) -> Result<(), AllocError>
    requires { count ≤ 9 }
    ensures { OnOk result (string_bytes text.new ≡ string_bytes text.old
        ++ last_digits number count) }
{
    for k in 0..count {
        let digit = number / tens(count - 1 - k) % 10;
        write!(text, "{digit}")?;
    }
    Ok(())
}

/// Returns a small power of ten.
pub(crate) fn tens(p: u32) -> u64
    requires { p ≤ 18 }
    ensures value { result ≡ 10 ^ p }
    ensures positive { 0 < result }
    ensures bound { result ≤ 10 ^ 18 }
{
    10u64.pow(p)
}

//! The choice of the axis of numbers. A chart is correct with any scale that contains the values; this choice is easy to read.
ghost use Rattle.std.specs.Prelude.{◌+ℤ◌, ◌≤ℤ◌, ◌^◌, negsuc, pos};

use crate::scale::{Digit, Power, Scale};
use crate::ticks::value_of;
use std::num::saturating_f64_to_i64;

/// The least distance of two marks, as a fraction of the greater absolute value.
const FINEST: f64 = 1e-12;

/// Returns a scale with two finite numbers between its ends, and at most six steps between them. If the numbers are equal, the scale
/// begins or ends at 0.
pub(crate) fn scale_between(low: f64, high: f64) -> Scale {
    if low < high {
        scale_apart(low, high)
    } else if low < 0.0 {
        scale_apart(low, 0.0)
    } else if low > 0.0 {
        scale_apart(0.0, low)
    } else {
        scale_apart(0.0, 1.0)
    }
}

/// Returns a scale with two finite numbers between its ends, the lesser first, and at most six steps between them.
fn scale_apart(low: f64, high: f64) -> Scale {
    let apart = high / 6.0 - low / 6.0;
    let (digit, power) = step_from(apart.max(low.abs() * FINEST).max(high.abs() * FINEST));
    let step = value_of(digit.times(1), power);
    let mut first = whole((low / step).floor());
    if low < value_of(digit.times(first), power) {
        first -= 1;
    }
    let mut last = whole((high / step).ceil());
    if value_of(digit.times(last), power) < high {
        last += 1;
    }
    if first < last {
        scale_of_steps(first, last, digit, power)
    } else {
        scale_of_steps(first - 1, last + 1, digit, power)
    }
}

/// Returns the scale of the steps between two whole numbers.
fn scale_of_steps(first: i64, last: i64, digit: Digit, power: Power) -> Scale
    requires first_low { negsuc (2 ^ 51) ≤ℤ first }
    requires first_high { first ≤ℤ pos (2 ^ 51) }
    requires last_low { negsuc (2 ^ 51) ≤ℤ last }
    requires last_high { last ≤ℤ pos (2 ^ 51) }
{
    Scale {
        low: digit.times(first),
        digit,
        count: (last - first).clamp(1, 100) as u32,
        power,
    }
}

/// Returns the nearest whole number that is not too large.
fn whole(number: f64) -> i64
    ensures low { negsuc (2 ^ 50) ≤ℤ result }
    ensures high { result ≤ℤ pos (2 ^ 50) }
{
    saturating_f64_to_i64(number).clamp(-(1 << 50), 1 << 50)
}

/// Returns the least step, 1, 2 or 5 times a power of ten, that is at least `least`.
fn step_from(least: f64) -> (Digit, Power) {
    let mut step = (Digit::One, Power::Times(0));
    if least > 1.0 {
        for p in 0..309 {
            for digit in [Digit::One, Digit::Two, Digit::Five] {
                step = (digit, Power::Times(p));
                if value_of(digit.times(1), Power::Times(p)) >= least {
                    return step;
                }
            }
        }
    } else {
        for p in 1..309 {
            for digit in [Digit::Five, Digit::Two, Digit::One] {
                if value_of(digit.times(1), Power::Over(p)) < least {
                    return step;
                }
                step = (digit, Power::Over(p));
            }
        }
    }
    step
}

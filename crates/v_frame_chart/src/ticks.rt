//! The values of the marks of the axis of numbers.
ghost use Rattle.std.specs.Prelude.{◌≡◌, ◌≤◌, ◌≤ℤ◌, ◌^◌, negsuc, pos};
ghost use Rattle.v_frame_chart.specs.Scales.{digit_size, down_of, number_at, ten_power, value_at, value_of as the_value};

use crate::axes::Axis;
use crate::scale::{Digit, Power, Scale};
use std::num::nearest_i64_to_f64;

impl Digit {
    /// Returns the digit multiplied by `count`.
    pub(crate) fn times(self, count: i64) -> i64
        requires low { negsuc (2 ^ 52) ≤ℤ count }
        requires high { count ≤ℤ pos (2 ^ 52) }
        ensures low { negsuc (2 ^ 55) ≤ℤ result }
        ensures high { result ≤ℤ pos (2 ^ 55) }
    {
        match self {
            Digit::One => count,
            Digit::Two => 2 * count,
            Digit::Five => 5 * count,
        }
    }

    /// Returns the digit.
    fn size(self) -> u32
        ensures value { result ≡ digit_size self }
        ensures small { result ≤ 5 }
    {
        match self {
            Digit::One => 1,
            Digit::Two => 2,
            Digit::Five => 5,
        }
    }
}

impl Scale {
    /// Returns the whole number of a mark.
    #[tactic(auto, unfolding(crate::specs::Scales::number_at))]
    pub(crate) fn number(&self, k: u32) -> i64
        requires { k ≤ self.now.count }
        ensures { result ≡ number_at self.now k }
    {
        self.low + (u64::from(k) * u64::from(self.digit.size())) as i64
    }

    /// Returns the value of a mark.
    pub(crate) fn value(&self, k: u32) -> f64
        requires { k ≤ self.now.count }
        ensures { result ≡ value_at self.now k }
    {
        value_of(self.number(k), self.power)
    }

    /// Returns the axis from the first mark, at the bottom of the picture, to the last.
    #[tactic(auto, unfolding(crate::specs::Scales::down_of))]
    pub(crate) fn axis(&self) -> Axis
        ensures { result ≡ down_of self.now }
    {
        Axis {
            low: self.value(0),
            high: self.value(self.count),
            start: nearest_i64_to_f64(160),
            end: nearest_i64_to_f64(50),
        }
    }
}

/// Returns the float nearest to a whole number times a power of ten.
#[tactic(auto, unfolding(crate::specs::Scales::value_of))]
pub(crate) fn value_of(number: i64, power: Power) -> f64
    ensures { result ≡ the_value number power }
{
    match power {
        Power::Times(p) => nearest_i64_to_f64(number) * power_of_ten(p),
        Power::Over(p) => nearest_i64_to_f64(number) / power_of_ten(p),
    }
}

/// Returns a power of ten.
fn power_of_ten(p: u32) -> f64
    ensures { result ≡ ten_power p }
{
    let mut power = 1.0;
    for _i in 0..p {
        power *= 10.0;
    }
    power
}

//! Conversions of integers to the nearest floating-point number. A number is split into two parts that convert exactly, each in
//! one instruction, and their sum is rounded once.
ghost use Rattle.std.specs.Prelude.{◌≡◌, ◌<◌, ◌≤◌, ◌-ℤ◌, ◌^◌, pos};
ghost use Rattle.std.specs.Float.Ieee.{binary32, binary64, of_int};

/// Returns the `f32` nearest to `number`.
#[inline(always)]
pub(crate) fn nearest_f32(number: u64) -> f32
    requires { number < 2 ^ 48 }
    ensures { result ≡ of_int binary32 (pos number) }
{
    ((number >> 24) as f32) * 16777216.0 + ((number & 0xff_ffff) as f32)
}

/// Returns the `f32` nearest to `number - less`, which may be negative.
#[inline(always)]
pub(crate) fn nearest_f32_to_difference(number: u64, less: u64) -> f32
    requires number { number < 2 ^ 48 }
    requires less { less < 2 ^ 48 }
    ensures { result ≡ of_int binary32 (pos number -ℤ pos less) }
{
    if number >= less {
        nearest_f32(number - less)
    } else {
        -nearest_f32(less - number)
    }
}

/// Returns the `f64` nearest to `number`.
pub(crate) fn nearest_f64(number: u128) -> f64
    requires { number < 2 ^ 106 }
    ensures { result ≡ of_int binary64 (pos number) }
{
    let (high, low) = ((number >> 53) as u64, (number & 0x1f_ffff_ffff_ffff) as u64);
    (high as f64) * 9007199254740992.0 + (low as f64)
}

//! Conversion of single values between the limited range and the full range, computed in 32 bits.
ghost use Rattle.std.specs.Prelude.{◌≡◌, ◌+◌, ◌-◌, ◌*◌, ◌/◌, ◌^◌, ◌<◌, ◌≤◌};
ghost use Rattle.v_frame_convert.specs.Depth.{largest_value};
ghost use Rattle.v_frame_convert.specs.Range.{luma_in_full_range, chroma_in_full_range, luma_in_limited_range, chroma_in_limited_range, unit_of};

/// Returns `2^(depth - 8)`, the factor between the limits at 8 bits and the limits at `depth` bits.
#[inline(always)]
fn unit(depth: u8) -> u32
    requires { (8 ≤ depth) × (depth ≤ 16) }
    ensures value { result ≡ unit_of depth }
    ensures bounds { (0 < result) × (result ≤ 256) }
{
    1 << (depth - 8)
}

/// Returns the largest value of a bit depth.
#[inline(always)]
fn largest(depth: u8) -> u32
    requires { (8 ≤ depth) × (depth ≤ 16) }
    ensures value { result ≡ largest_value depth }
    ensures units { result + 1 ≡ 256 * unit_of depth }
    ensures whole { result + 1 ≡ 2 ^ depth }
{
    (1 << depth) - 1
}

/// Converts a luma value from the limited range to the full range.
#[inline(always)]
pub(crate) fn luma_to_full(value: u16, depth: u8) -> u16
    requires { (8 ≤ depth) × (depth ≤ 16) }
    ensures value { result ≡ luma_in_full_range depth value }
    ensures fits { result < 2 ^ depth }
{
    let (unit, largest) = (unit(depth), largest(depth));
    let above = u32::from(value).saturating_sub(16 * unit);
    let sum = above * largest + 219 * unit / 2;
    ((sum >> (depth - 8)) / 219).min(largest) as u16
}

/// Converts a chroma value from the limited range to the full range.
#[inline(always)]
pub(crate) fn chroma_to_full(value: u16, depth: u8) -> u16
    requires { (8 ≤ depth) × (depth ≤ 16) }
    ensures value { result ≡ chroma_in_full_range depth value }
    ensures fits { result < 2 ^ depth }
{
    let (unit, largest) = (unit(depth), largest(depth));
    let below = 128 * unit * (largest - 224 * unit);
    let sum = u32::from(value) * largest + 112 * unit;
    ((sum.saturating_sub(below) >> (depth - 8)) / 224).min(largest) as u16
}

/// Returns `number` divided by the largest value of the depth, without a division. In base `2^depth` the number has two digits,
/// so the quotient is its upper digit, sometimes plus 1.
#[inline(always)]
fn by_largest(number: u32, depth: u8) -> u32
    requires depth { (8 ≤ depth) × (depth ≤ 16) }
    requires digits { number < 2 ^ depth * largest_value depth }
    ensures { result ≡ number / largest_value depth }
{
    (number + (number >> depth) + 1) >> depth
}

/// Converts a luma value from the full range to the limited range.
#[inline(always)]
pub(crate) fn luma_to_limited(value: u16, depth: u8) -> u16
    requires { (8 ≤ depth) × (depth ≤ 16) }
    ensures value { result ≡ luma_in_limited_range depth value }
    ensures fits { result < 2 ^ depth }
{
    let (unit, largest) = (unit(depth), largest(depth));
    let sum = u32::from(value).min(largest) * (219 * unit) + largest / 2;
    (16 * unit + by_largest(sum, depth)) as u16
}

/// Converts a chroma value from the full range to the limited range.
#[inline(always)]
pub(crate) fn chroma_to_limited(value: u16, depth: u8) -> u16
    requires { (8 ≤ depth) × (depth ≤ 16) }
    ensures value { result ≡ chroma_in_limited_range depth value }
    ensures fits { result < 2 ^ depth }
{
    let (unit, largest) = (unit(depth), largest(depth));
    let above = 128 * unit * (largest - 224 * unit) + largest / 2;
    let sum = u32::from(value).min(largest) * (224 * unit) + above;
    by_largest(sum, depth) as u16
}

/// Converts an 8-bit luma value from the full range to the limited range. The computation fits 16 bits, so the compiler
/// vectorizes it well.
#[inline(always)]
pub(crate) fn luma_byte_to_limited(value: u16) -> u16
    ensures value { result ≡ luma_in_limited_range 8 value }
    ensures fits { result < 256 }
{
    16 + (value.min(255) * 219 + 127) / 255
}

/// Converts an 8-bit chroma value from the full range to the limited range. The computation fits 16 bits.
#[inline(always)]
pub(crate) fn chroma_byte_to_limited(value: u16) -> u16
    ensures value { result ≡ chroma_in_limited_range 8 value }
    ensures fits { result < 256 }
{
    (value.min(255) * 224 + 4095) / 255
}

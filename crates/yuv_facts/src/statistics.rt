//! The statistics of a plane, calculated from the number of times that each value occurs.
ghost use Rattle.std.specs.Prelude.{◌≡◌, ◌-◌, ◌^◌, ◌<◌, ◌≤◌, ℕ, if◌then◌else◌, length, min, slice_index, IfSome, IsNone, OnOk, string_bytes};
ghost use Rattle.yuv_facts.specs.Statistics.{is_outside, most_at, nominal_at, nominal_range, outside_from, range_up_to, AppendsChroma, AppendsPlane, Describes, HasNoValue};

use crate::value_counts::ValueCounts;
use std::alloc::{AllocError, Global};
use std::num::nearest_u64_to_f64;
use v_frame_formats::Component;
use v_frame_rgb::ColorRange;
use yuv_reports::{SampleStatistics, push_statistics};

/// The values that samples nominally have, from `least` to `greatest`, and the greatest value of their bit depth, `most`.
#[derive(Clone, Copy)]
pub(crate) struct NominalRange {
    pub(crate) least: u16,
    pub(crate) greatest: u16,
    pub(crate) most: u16,
}

impl NominalRange {
    /// Returns the nominal range of samples with the bit depth `depth`. Full range has all values of the depth. Limited range has
    /// the values that correspond to 16 to `top` in 8 bits, as in ITU-R BT.601 and BT.709.
    pub(crate) fn new(range: ColorRange, top: u8, depth: u8) -> Self
        ensures { result ≡ nominal_range range top depth }
    {
        let most = most_of(depth);
        match range {
            ColorRange::Limited => NominalRange {
                least: nominal(16, depth),
                greatest: nominal(top, depth),
                most,
            },
            ColorRange::Full => NominalRange {
                least: 0,
                greatest: most,
                most,
            },
        }
    }

    /// Returns a range that contains exactly the values up to the greatest value of the bit depth.
    fn up_to_most(self) -> Self
        ensures { result ≡ range_up_to self.most }
    {
        NominalRange {
            least: 0,
            greatest: self.most,
            most: u16::MAX,
        }
    }

    /// Returns `count`, the number of times that `value` occurs, if the value is outside the range and not above `most`, and 0
    /// otherwise.
    fn count_outside(self, value: usize, count: u64) -> u64
        ensures { result ≡ (if is_outside self value then count else 0) }
    {
        if value < usize::from(self.least)
            || value > usize::from(self.greatest) && value <= usize::from(self.most)
        {
            count
        } else {
            0
        }
    }
}

/// Returns the greatest value of a bit depth.
fn most_of(depth: u8) -> u16
    ensures { result ≡ most_at depth }
{
    if depth == 0 {
        return 0;
    }
    u16::MAX >> 16u8.saturating_sub(depth)
}

/// Returns the value of the bit depth `depth` that corresponds to a value of 8 bits.
fn nominal(value: u8, depth: u8) -> u16
    ensures { result ≡ nominal_at depth value }
{
    u16::from(value) << depth.saturating_sub(8).min(8)
}

/// Appends the line of a plane, if any value occurs in it.
pub(crate) fn push_plane(
    alloc: Global,
    text: &mut String,
    plane: Component,
    counts: &ValueCounts,
    range: NominalRange,
) -> Result<(), AllocError>
    ensures { OnOk result (AppendsPlane plane counts.now.counts.items range
        (string_bytes text.old) (string_bytes text.new)) }
{
    match described(plane, counts.counts(), range) {
        Some(said) => push_statistics(alloc, text, &said),
        None => Ok(()),
    }
}

/// Appends the line of a chroma plane, if the frames have it.
pub(crate) fn push_chroma_plane(
    alloc: Global,
    text: &mut String,
    plane: Component,
    counts: &Option<ValueCounts>,
    range: NominalRange,
) -> Result<(), AllocError>
    ensures { OnOk result (AppendsChroma plane counts.now range (string_bytes text.old)
        (string_bytes text.new)) }
{
    match counts {
        Some(counts) => push_plane(alloc, text, plane, counts, range),
        None => Ok(()),
    }
}

/// Returns the statistics of a plane with these counts, or `None` if no value occurs.
fn described(plane: Component, counts: &[u64], range: NominalRange) -> Option<SampleStatistics>
    requires { length counts.now ≤ 2 ^ 16 }
    ensures said { IfSome result (Describes plane counts.now range) }
    ensures none { IsNone result → HasNoValue counts.now }
{
    let minimum = minimum(counts)?;
    let maximum = maximum(counts)?;
    Some(SampleStatistics {
        plane,
        minimum,
        maximum,
        mean: mean(counts),
        outside: outside(counts, range),
        most: range.most,
        above: outside(counts, range.up_to_most()),
    })
}

/// Returns the least value that occurs, or `None` if none does.
fn minimum(counts: &[u64]) -> Option<u16>
    requires { length counts.now ≤ 2 ^ 16 }
    ensures occurs { IfSome result (λ least. 0 < slice_index counts.now least) }
    ensures least { IfSome result (λ least. (value : ℕ) → value < least
        → slice_index counts.now value ≡ 0) }
    ensures none { IsNone result → HasNoValue counts.now }
{
    for value in 0..counts.len() {
        if counts[value] > 0 {
            return Some(value as u16);
        }
    }
    None
}

/// Returns the greatest value that occurs, or `None` if none does.
fn maximum(counts: &[u64]) -> Option<u16>
    requires { length counts.now ≤ 2 ^ 16 }
    ensures occurs { IfSome result (λ greatest. 0 < slice_index counts.now greatest) }
    ensures greatest { IfSome result (λ greatest. (value : ℕ) → greatest < value
        → slice_index counts.now value ≡ 0) }
    ensures none { IsNone result → HasNoValue counts.now }
{
    for value in (0..counts.len()).rev() {
        if counts[value] > 0 {
            return Some(value as u16);
        }
    }
    None
}

/// Returns the mean of the values, or 0 if there are none.
fn mean(counts: &[u64]) -> f64 {
    let (mut sum, mut all) = (0u128, 0u64);
    for value in 0..counts.len() {
        let count = counts[value];
        sum = sum.saturating_add(u128::from(count) * value as u128);
        all = all.saturating_add(count);
    }
    if all == 0 {
        return 0.0;
    }
    quotient(sum, all)
}

/// Returns the number of samples that are outside `range` and not above its `most`, or `u64::MAX` if there are more.
fn outside(counts: &[u64], range: NominalRange) -> u64
    ensures { result ≡ min (outside_from range 0 counts.now) (2 ^ 64 - 1) }
{
    let mut outside = 0u64;
    for value in 0..counts.len() {
        outside = outside.saturating_add(range.count_outside(value, counts[value]));
    }
    outside
}

/// Returns a sum divided by a count. The integer part is exact.
fn quotient(sum: u128, count: u64) -> f64
    requires { 0 < count }
{
    let count = u128::from(count);
    let (whole, rest) = (sum / count, sum % count);
    let (whole, rest) = (whole.min(u128::from(u64::MAX)) as u64, rest as u64);
    nearest_u64_to_f64(whole) + nearest_u64_to_f64(rest) / nearest_u64_to_f64(count as u64)
}

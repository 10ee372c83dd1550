//! Conversion of single values between bit depths.
ghost use Rattle.std.specs.Prelude.{◌≡◌, ◌-◌, ◌/◌, ◌^◌, ◌<◌, ◌≤◌};
ghost use Rattle.v_frame_convert.specs.Depth.{at_depth, largest_value};

/// A conversion from one bit depth to another, with its constants computed once for many values.
#[derive(Drop)]
pub(crate) struct DepthChange {
    from: u8,
    to: u8,
    largest_source: u16,
    up: u8,
    half: u16,
    down: u8,
    largest: u16,
    ghost from_low: { 8 ≤ from },
    ghost from_high: { from ≤ 16 },
    ghost to_low: { 8 ≤ to },
    ghost to_high: { to ≤ 16 },
    ghost largest_source_is: { largest_source ≡ largest_value from },
    ghost up_is: { up ≡ to - from },
    ghost half_is: { half ≡ 2 ^ down / 2 },
    ghost down_is: { down ≡ from - to },
    ghost largest_is: { largest ≡ largest_value to },
}

impl DepthChange {
    /// Returns the conversion from depth `from` to depth `to`, both from 8 to 16 bits.
    pub(crate) fn new(from: u8, to: u8) -> Self
        requires from { (8 ≤ from) × (from ≤ 16) }
        requires to { (8 ≤ to) × (to ≤ 16) }
        ensures from { result.from ≡ from }
        ensures to { result.to ≡ to }
    {
        let down = from.saturating_sub(to);
        DepthChange {
            from,
            to,
            largest_source: u16::MAX >> (16 - from),
            up: to.saturating_sub(from),
            half: (1u16 << down) / 2,
            down,
            largest: u16::MAX >> (16 - to),
        }
    }

    /// Returns `value` at the other depth, which is not smaller.
    #[inline(always)]
    pub(crate) fn raise(&self, value: u16) -> u16
        requires { self.now.from ≤ self.now.to }
        ensures value { result ≡ at_depth self.now.from self.now.to value }
        ensures fits { result < 2 ^ self.now.to }
    {
        value.min(self.largest_source) << self.up
    }

    /// Returns `value` at the other depth.
    ///
    /// At least one of the two shifts is by 0 bits. If the sum saturates at 65535, the result is the largest value of the depth
    /// in any case.
    #[inline(always)]
    pub(crate) fn apply(&self, value: u16) -> u16
        ensures value { result ≡ at_depth self.now.from self.now.to value }
        ensures fits { result < 2 ^ self.now.to }
    {
        let shifted = value.min(self.largest_source) << self.up;
        (shifted.saturating_add(self.half) >> self.down).min(self.largest)
    }
}

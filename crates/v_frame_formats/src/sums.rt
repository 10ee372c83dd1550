//! Whole numbers for the planes of a frame.
ghost use Rattle.std.specs.Prelude.{◌≡◌, ◌+◌, ◌*◌, option_map, unwrap_or};
ghost use Rattle.v_frame_formats.specs.Sums.{added, added_chroma, at_most, multiplied};

/// A whole number for each plane of a frame.
#[derive(Debug, Clone, Copy, PartialEq, Eq)]
pub struct PlaneSums {
    /// The number of the luma plane.
    pub y: u128,
    /// The number of the first chroma plane, if there is one.
    pub u: Option<u128>,
    /// The number of the second chroma plane, if there is one.
    pub v: Option<u128>,
}

impl PlaneSums {
    /// Returns the sum for each plane. A chroma plane has a sum if both numbers exist. Sums saturate at `u128::MAX`.
    pub fn plus(&self, more: &PlaneSums) -> Self
        ensures { result ≡ added self.now more.now }
    {
        PlaneSums {
            y: self.y.saturating_add(more.y),
            u: plus_chroma(self.u, more.u),
            v: plus_chroma(self.v, more.v),
        }
    }

    /// Returns each number multiplied by `count`. Products saturate at `u128::MAX`.
    pub fn times(&self, count: u64) -> Self
        ensures { result ≡ multiplied self.now count }
    {
        let count = u128::from(count);
        PlaneSums {
            y: self.y.saturating_mul(count),
            u: times_chroma(self.u, count),
            v: times_chroma(self.v, count),
        }
    }

    /// Returns the sum over all planes. It saturates at `u128::MAX`.
    pub fn total(&self) -> u128
        ensures { result ≡ at_most (at_most (self.now.y + unwrap_or self.now.u 0)
            + unwrap_or self.now.v 0) }
    {
        self.y
            .saturating_add(self.u.unwrap_or(0))
            .saturating_add(self.v.unwrap_or(0))
    }
}

/// Returns the sum of the numbers of two chroma planes, or `None` if one is missing.
fn plus_chroma(first: Option<u128>, second: Option<u128>) -> Option<u128>
    ensures { result ≡ added_chroma first second }
{
    match (first, second) {
        (Some(first), Some(second)) => Some(first.saturating_add(second)),
        _ => None,
    }
}

/// Returns the number of a chroma plane multiplied by a factor, or `None` if it is missing.
fn times_chroma(number: Option<u128>, count: u128) -> Option<u128>
    ensures { result ≡ option_map (λ number. at_most (number * count)) number }
{
    match number {
        Some(number) => Some(number.saturating_mul(count)),
        None => None,
    }
}

//! The floating-point type in which the windows of a line are added.
ghost use Rattle.std.specs.Prelude.{◌≡◌};
ghost use Rattle.std.specs.Float.{float_zero};
ghost use Rattle.std.specs.Float.Ieee.{Float, Format, add, binary32, binary64};

use std::num::f32_to_f64_with_nan;

/// A floating-point type in which the similarities of a line of windows are added, one after the other.
pub(crate) trait LineSum: Copy {
    // The number as a float of the specification, and the format to which its sums are rounded.
    ghost float: { Self → Float };

    ghost format: { Format };

    /// Returns the sum of no windows, which is zero.
    fn zero() -> Self
        ensures { float result ≡ float_zero };

    /// Returns the sum with the similarity of one more window.
    fn with_window(self, similarity: f32) -> Self
        ensures { float result ≡ add format (float self) similarity };

    /// Returns the sum as an `f64`.
    fn into_f64(self) -> f64
        ensures { result ≡ float self };
}

impl LineSum for f32 {
    ghost float = { λ sum. sum };

    ghost format = { binary32 };

    #[inline(always)]
    fn zero() -> f32 {
        0.0
    }

    #[inline(always)]
    fn with_window(self, similarity: f32) -> f32 {
        self + similarity
    }

    #[inline(always)]
    fn into_f64(self) -> f64 {
        f32_to_f64_with_nan(self)
    }
}

impl LineSum for f64 {
    ghost float = { λ sum. sum };

    ghost format = { binary64 };

    #[inline(always)]
    fn zero() -> f64 {
        0.0
    }

    #[inline(always)]
    fn with_window(self, similarity: f32) -> f64 {
        self + f32_to_f64_with_nan(similarity)
    }

    #[inline(always)]
    fn into_f64(self) -> f64 {
        self
    }
}

//! The coefficients of the standards as integers with a common denominator.
ghost use Rattle.std.specs.Prelude.{◌≡◌, ◌-◌, ◌^◌, ◌≤◌};
ghost use Rattle.v_frame_rgb.specs.Exact.{levels_at};
ghost use Rattle.v_frame_rgb.specs.WholeSteps.{unit_at, whole_steps_of};

use crate::standard::{ColorRange, Standard};

/// The change of a color for one step of luma, Cb or Cr. All steps are integers with the common denominator `scale`, multiplied
/// by the [`unit`] of the bit depth.
#[derive(Clone, Copy)]
pub(crate) struct WholeSteps {
    pub scale: u64,
    pub luma: u64,
    pub red_v: u64,
    pub green_u: u64,
    pub green_v: u64,
    pub blue_u: u64,
}

impl WholeSteps {
    /// Returns the steps of a standard.
    pub(crate) fn new(standard: Standard, range: ColorRange) -> Self
        ensures { result ≡ whole_steps_of standard range }
    {
        match range {
            ColorRange::Limited => Self::limited(standard),
            ColorRange::Full => Self::full(standard),
        }
    }

    /// Returns the steps of a standard in limited range.
    fn limited(standard: Standard) -> Self
        ensures { result ≡ whole_steps_of standard ColorRange.Limited }
    {
        match standard {
            Standard::Bt601 => WholeSteps {
                scale: 2_879_587_200_000,
                luma: 3_352_944_000_000,
                red_v: 4_595_898_303_000,
                green_u: 1_128_113_676_000,
                green_v: 2_341_011_231_000,
                blue_u: 5_808_795_858_000,
            },
            Standard::Bt709 => WholeSteps {
                scale: 3_508_485_120_000,
                luma: 4_085_222_400_000,
                red_v: 6_289_805_373_120,
                green_u: 748_179_590_040,
                green_v: 1_869_704_449_560,
                blue_u: 7_411_330_232_640,
            },
            Standard::Bt2020 => WholeSteps {
                scale: 3_325_996_800_000,
                luma: 3_872_736_000_000,
                red_v: 5_583_264_708_600,
                green_u: 623_046_023_190,
                green_v: 2_163_309_201_990,
                blue_u: 7_123_527_887_400,
            },
        }
    }

    /// Returns the steps of a standard in full range.
    fn full(standard: Standard) -> Self
        ensures { result ≡ whole_steps_of standard ColorRange.Full }
    {
        match standard {
            Standard::Bt601 => WholeSteps {
                scale: 58_700_000,
                luma: 14_968_500_000,
                red_v: 20_985_837_000,
                green_u: 5_151_204_000,
                green_v: 10_689_549_000,
                blue_u: 26_524_182_000,
            },
            Standard::Bt709 => WholeSteps {
                scale: 71_520_000,
                luma: 18_237_600_000,
                red_v: 28_720_572_480,
                green_u: 3_416_345_160,
                green_v: 8_537_463_240,
                blue_u: 33_841_690_560,
            },
            Standard::Bt2020 => WholeSteps {
                scale: 67_800_000,
                luma: 17_289_000_000,
                red_v: 25_494_359_400,
                green_u: 2_844_959_010,
                green_v: 9_878_124_210,
                blue_u: 32_527_524_600,
            },
        }
    }
}

/// Returns the unit in which the levels of a range are counted at a bit depth: `2^(depth - 8)` in limited range, and the
/// largest value in full range.
pub(crate) fn unit(range: ColorRange, depth: u8) -> u64
    requires { (8 ≤ depth) × (depth ≤ 16) }
    ensures { result ≡ unit_at range depth }
{
    match range {
        ColorRange::Limited => u64::from(step(depth)),
        ColorRange::Full => (1 << depth) - 1,
    }
}

/// Returns the luma sample of black at a bit depth.
pub(crate) fn black(range: ColorRange, depth: u8) -> u16
    requires { (8 ≤ depth) × (depth ≤ 16) }
    ensures { result ≡ (levels_at range depth).black }
{
    match range {
        ColorRange::Limited => 16 * step(depth),
        ColorRange::Full => 0,
    }
}

/// Returns `2^(depth - 8)`, the factor between 8-bit levels and levels at the bit depth.
fn step(depth: u8) -> u16
    requires { (8 ≤ depth) × (depth ≤ 16) }
    ensures value { result ≡ 2 ^ (depth - 8) }
    ensures small { result ≤ 256 }
{
    1 << (depth - 8)
}

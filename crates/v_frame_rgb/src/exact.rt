//! Colors of samples of any bit depth, computed with exact coefficients and rounded once.
ghost use Rattle.std.specs.Prelude.{◌≡◌, ◌+◌, ◌*◌, ◌^◌, ◌<◌, ◌≤◌};
ghost use Rattle.v_frame_rgb.specs.Colors.{sample_of};
ghost use Rattle.v_frame_rgb.specs.Exact.{exact_color, gray_at, levels_at, steps_at};
ghost use Rattle.v_frame_rgb.specs.WholeSteps.{AreSmall, AreSteps};

use crate::color::Color;
use crate::standard::{ColorRange, Standard};
use crate::whole_steps::{WholeSteps, black, unit};

/// The exact coefficients of a standard for the conversion from Y'CbCr to R'G'B' at a bit depth: integers with a common
/// denominator.
#[derive(Clone, Copy)]
pub struct ExactMatrix {
    standard: Standard,
    range: ColorRange,
    depth: u8,
    black: u16,
    gray: u16,
    scale: u64,
    steps: WholeSteps,
    ghost black_is: { black ≡ (levels_at range depth).black },
    ghost gray_is: { gray ≡ gray_at depth },
    ghost small: { AreSmall scale steps },
    ghost exact: { AreSteps (steps_at standard range depth) scale steps },
}

impl ExactMatrix {
    /// Returns the exact coefficients of `standard` for samples of this range and this bit depth. `depth` is from 8 to 16.
    pub fn new(standard: Standard, range: ColorRange, depth: u8) -> Self
        requires low { 8 ≤ depth }
        requires high { depth ≤ 16 }
        ensures standard { result.standard ≡ standard }
        ensures range { result.range ≡ range }
        ensures depth { result.depth ≡ depth }
    {
        let steps = WholeSteps::new(standard, range);
        let unit = unit(range, depth);
        let scale = steps.scale * unit;
        ExactMatrix {
            standard,
            range,
            depth,
            black: black(range, depth),
            gray: 1 << (depth - 1),
            scale,
            steps,
        }
    }

    /// Returns the 8-bit color of a luma sample `y`, a Cb sample `u` and a Cr sample `v`. Each channel is computed exactly from
    /// the fractions of the standard, rounded once to the nearest integer, halves up, and clipped to `0..=255`.
    #[inline(always)]
    pub fn color(&self, y: u16, u: u16, v: u16) -> Color
        ensures { result ≡ exact_color self.now.standard self.now.range self.now.depth y u v }
    {
        let red_more = weighed(self.steps.red_v, v);
        let red_less = weighed(self.steps.red_v, self.gray);
        let u_gray = weighed(self.steps.green_u, self.gray);
        let v_gray = weighed(self.steps.green_v, self.gray);
        let u_less = weighed(self.steps.green_u, u);
        let v_less = weighed(self.steps.green_v, v);
        let blue_more = weighed(self.steps.blue_u, u);
        let blue_less = weighed(self.steps.blue_u, self.gray);
        let red = self.channel(y, red_more, red_less);
        let green = self.channel(y, u_gray + v_gray, u_less + v_less);
        let blue = self.channel(y, blue_more, blue_less);
        Color { red, green, blue }
    }

    /// Returns a channel: the luma above black, plus `more` and minus `less` for the chroma.
    #[inline(always)]
    fn channel(&self, y: u16, more: u64, less: u64) -> u8
        requires more { more < 2 ^ 60 }
        requires less { less < 2 ^ 60 }
        ensures { result ≡ sample_of self.now.scale (self.now.steps.luma * y + more)
            (self.now.steps.luma * self.now.black + less) }
    {
        let luma = weighed(self.steps.luma, y);
        let black = weighed(self.steps.luma, self.black);
        nearest_sample(self.scale, luma + more, black + less)
    }
}

/// Returns the product of a coefficient and a sample.
#[inline(always)]
#[tactic(auto, using(crate::proofs::ExactLemmas::weighed_below))]
fn weighed(coefficient: u64, sample: u16) -> u64
    requires { coefficient < 2 ^ 43 }
    ensures value { result ≡ coefficient * sample }
    ensures small { result < 2 ^ 59 }
{
    coefficient * u64::from(sample)
}

/// Returns `(bright - dark) / scale`, rounded to the nearest integer, halves up, and clipped to `0..=255`.
#[inline(always)]
fn nearest_sample(scale: u64, bright: u64, dark: u64) -> u8
    requires some { 0 < scale }
    requires scale { scale < 2 ^ 59 }
    requires bright { bright < 2 ^ 61 }
    ensures { result ≡ sample_of scale bright dark }
{
    ((bright + scale / 2).saturating_sub(dark) / scale).min(255) as u8
}

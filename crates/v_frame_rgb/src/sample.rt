//! The luma and chroma samples of a color.
ghost use Rattle.std.specs.Prelude.{◌≡◌, ℕ, ◌*◌, ◌<◌, ◌^◌};
ghost use Rattle.v_frame_rgb.specs.Colors.{sample_of, y_of, u_of, v_of, sample_scale};

use crate::color::Color;
use crate::matrix::YuvMatrix;

mod sealed {
    /// Types outside this crate cannot implement [`Channel`](super::Channel).
    pub trait Sealed {}

    impl Sealed for super::Luma {}

    impl Sealed for super::ChromaU {}

    impl Sealed for super::ChromaV {}
}

/// A channel of Y'CbCr: [`Luma`], [`ChromaU`] or [`ChromaV`].
pub trait Channel: sealed::Sealed {
    ghost use Rattle.v_frame_rgb.specs.declared.color.Color.{Color};
    ghost use Rattle.v_frame_rgb.specs.declared.matrix.YuvMatrix.{YuvMatrix};

    // The sample of a color in this channel.
    ghost sample: { YuvMatrix → Color → ℕ };

    /// Returns the sample of `color` in this channel, rounded to the nearest integer, halves up, and clipped to `0..=255`.
    fn sample(matrix: YuvMatrix, color: Color) -> u8
        ensures { result ≡ sample matrix color };
}

/// Luma (Y').
pub struct Luma;

/// Cb, the blue difference.
pub struct ChromaU;

/// Cr, the red difference.
pub struct ChromaV;

impl Channel for Luma {
    ghost sample = { y_of };

    #[inline(always)]
    fn sample(matrix: YuvMatrix, color: Color) -> u8 {
        let red = weighed(matrix.y_red, color.red);
        let green = weighed(matrix.y_green, color.green);
        let blue = weighed(matrix.y_blue, color.blue);
        nearest_sample(u32::from(matrix.black) * 65536 + (red + green + blue), 0)
    }
}

impl Channel for ChromaU {
    ghost sample = { u_of };

    #[inline(always)]
    fn sample(matrix: YuvMatrix, color: Color) -> u8 {
        let red = weighed(matrix.u_red, color.red);
        let green = weighed(matrix.u_green, color.green);
        let blue = weighed(matrix.u_blue, color.blue);
        nearest_sample(128 * 65536 + blue, red + green)
    }
}

impl Channel for ChromaV {
    ghost sample = { v_of };

    #[inline(always)]
    fn sample(matrix: YuvMatrix, color: Color) -> u8 {
        let red = weighed(matrix.v_red, color.red);
        let green = weighed(matrix.v_green, color.green);
        let blue = weighed(matrix.v_blue, color.blue);
        nearest_sample(128 * 65536 + red, green + blue)
    }
}

/// Returns the product of a coefficient and a channel.
#[inline(always)]
fn weighed(coefficient: u16, channel: u8) -> u32
    ensures value { result ≡ coefficient * channel }
    ensures small { result < 2 ^ 24 }
{
    u32::from(coefficient) * u32::from(channel)
}

/// Returns `(bright - dark) / 65536`, rounded to the nearest integer, halves up, and clipped to `0..=255`.
#[inline(always)]
fn nearest_sample(bright: u32, dark: u32) -> u8
    requires { bright < 2 ^ 31 }
    ensures { result ≡ sample_of sample_scale bright dark }
{
    ((bright + 32768).saturating_sub(dark) / 65536).min(255) as u8
}

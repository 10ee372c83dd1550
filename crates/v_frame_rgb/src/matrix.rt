//! The coefficients of the conversions, from a standard or chosen by the caller.
ghost use Rattle.std.specs.Prelude.{◌≡◌, ◌<◌, ◌^◌};
ghost use Rattle.v_frame_rgb.specs.Colors.{sample_of, color_of, rgb_matrix_of, yuv_matrix_of, color_scale};

use crate::color::Color;
use crate::standard::{ColorRange, Standard};

/// Coefficients for the conversion from Y'CbCr to R'G'B', in units of 1/16384.
///
/// With these coefficients, and before rounding, `red = luma * (y - black) + red_v * (v - 128)`, `green = luma * (y - black) -
/// green_u * (u - 128) - green_v * (v - 128)` and `blue = luma * (y - black) + blue_u * (u - 128)`.
#[derive(Debug, Clone, Copy, PartialEq, Eq)]
pub struct RgbMatrix {
    /// The luma sample of black: 16 in limited range, 0 in full range.
    pub black: u8,
    pub luma: u16,
    pub red_v: u16,
    pub green_u: u16,
    pub green_v: u16,
    pub blue_u: u16,
}

/// Coefficients for the conversion from R'G'B' to Y'CbCr, in units of 1/65536.
///
/// With these coefficients, and before rounding, `y = black + y_red * red + y_green * green + y_blue * blue`,
/// `u = 128 - u_red * red - u_green * green + u_blue * blue` and `v = 128 + v_red * red - v_green * green - v_blue * blue`.
#[derive(Debug, Clone, Copy, PartialEq, Eq)]
pub struct YuvMatrix {
    /// The luma sample of black: 16 in limited range, 0 in full range.
    pub black: u8,
    pub y_red: u16,
    pub y_green: u16,
    pub y_blue: u16,
    pub u_red: u16,
    pub u_green: u16,
    pub u_blue: u16,
    pub v_red: u16,
    pub v_green: u16,
    pub v_blue: u16,
}

impl RgbMatrix {
    /// Returns the coefficients of `standard` for 8-bit samples of this range. Each is the integer nearest to the exact
    /// coefficient in units of 1/16384.
    pub fn new(standard: Standard, range: ColorRange) -> Self
        ensures { result ≡ rgb_matrix_of standard range }
    {
        let (black, luma) = match range {
            ColorRange::Limited => (16, 19077),
            ColorRange::Full => (0, 16384),
        };
        let (red_v, green_u, green_v, blue_u) = match (standard, range) {
            (Standard::Bt601, ColorRange::Limited) => (26149, 6419, 13320, 33050),
            (Standard::Bt601, ColorRange::Full) => (22970, 5638, 11700, 29032),
            (Standard::Bt709, ColorRange::Limited) => (29372, 3494, 8731, 34610),
            (Standard::Bt709, ColorRange::Full) => (25802, 3069, 7670, 30402),
            (Standard::Bt2020, ColorRange::Limited) => (27503, 3069, 10657, 35091),
            (Standard::Bt2020, ColorRange::Full) => (24160, 2696, 9361, 30825),
        };
        RgbMatrix {
            black,
            luma,
            red_v,
            green_u,
            green_v,
            blue_u,
        }
    }

    /// Returns the color of a luma sample `y`, a Cb sample `u` and a Cr sample `v`. Each channel is rounded to the nearest
    /// integer, halves up, and clipped to `0..=255`.
    #[inline(always)]
    pub fn color(self, y: u8, u: u8, v: u8) -> Color
        ensures { result ≡ color_of self y u v }
    {
        let luma = u32::from(self.luma);
        let (red_v, blue_u) = (u32::from(self.red_v), u32::from(self.blue_u));
        let (green_u, green_v) = (u32::from(self.green_u), u32::from(self.green_v));
        let black = luma * u32::from(self.black);
        let (y, u, v) = (luma * u32::from(y), u32::from(u), u32::from(v));
        Color {
            red: color_sample(y + red_v * v, black + red_v * 128),
            green: color_sample(
                y + (green_u * 128 + green_v * 128),
                black + (green_u * u + green_v * v),
            ),
            blue: color_sample(y + blue_u * u, black + blue_u * 128),
        }
    }
}

impl YuvMatrix {
    /// Returns the coefficients of `standard` for 8-bit samples of this range. Each is the integer nearest to the exact
    /// coefficient in units of 1/65536.
    pub fn new(standard: Standard, range: ColorRange) -> Self
        ensures { result ≡ yuv_matrix_of standard range }
    {
        match range {
            ColorRange::Limited => Self::limited(standard),
            ColorRange::Full => Self::full(standard),
        }
    }

    /// Returns the coefficients of a standard for samples of limited range.
    fn limited(standard: Standard) -> Self
        ensures { result ≡ yuv_matrix_of standard ColorRange.Limited }
    {
        let (y_red, y_green, y_blue) = match standard {
            Standard::Bt601 => (16829, 33039, 6416),
            Standard::Bt709 => (11966, 40254, 4064),
            Standard::Bt2020 => (14786, 38160, 3338),
        };
        let (u_red, u_green, v_green, v_blue) = match standard {
            Standard::Bt601 => (9714, 19071, 24103, 4681),
            Standard::Bt709 => (6596, 22189, 26145, 2639),
            Standard::Bt2020 => (8038, 20746, 26469, 2315),
        };
        YuvMatrix {
            black: 16,
            y_red,
            y_green,
            y_blue,
            u_red,
            u_green,
            u_blue: 28784,
            v_red: 28784,
            v_green,
            v_blue,
        }
    }

    /// Returns the coefficients of a standard for samples of full range.
    fn full(standard: Standard) -> Self
        ensures { result ≡ yuv_matrix_of standard ColorRange.Full }
    {
        let (y_red, y_green, y_blue) = match standard {
            Standard::Bt601 => (19595, 38470, 7471),
            Standard::Bt709 => (13933, 46871, 4732),
            Standard::Bt2020 => (17216, 44433, 3886),
        };
        let (u_red, u_green, v_green, v_blue) = match standard {
            Standard::Bt601 => (11058, 21710, 27439, 5329),
            Standard::Bt709 => (7509, 25259, 29763, 3005),
            Standard::Bt2020 => (9151, 23617, 30133, 2635),
        };
        YuvMatrix {
            black: 0,
            y_red,
            y_green,
            y_blue,
            u_red,
            u_green,
            u_blue: 32768,
            v_red: 32768,
            v_green,
            v_blue,
        }
    }
}

/// Returns `(bright - dark) / 16384`, rounded to the nearest integer, halves up, and clipped to `0..=255`.
#[inline(always)]
fn color_sample(bright: u32, dark: u32) -> u8
    requires { bright < 2 ^ 31 }
    ensures { result ≡ sample_of color_scale bright dark }
{
    ((bright + 8192).saturating_sub(dark) / 16384).min(255) as u8
}

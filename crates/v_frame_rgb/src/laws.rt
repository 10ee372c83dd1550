//! Laws of colors and samples, which state more than the contract of a single conversion. Each law is the contract of a
//! function that does nothing.
ghost use Rattle.std.specs.Prelude.{◌≡◌, ◌+◌, ◌/◌, ◌<◌, ℕ, pos, ◌-ℤ◌};
ghost use Rattle.std.specs.Int.{int_div_euclid, int_max, int_min};
ghost use Rattle.v_frame_rgb.specs.Colors.{sample_of};
ghost use Rattle.v_frame_rgb.specs.Laws.{RedIsNear, GreenIsNear, BlueIsNear, LumaIsNear, ChromaUIsNear, ChromaVIsNear};
ghost use Rattle.v_frame_rgb.specs.Laws.{HasBytes, ComesBack, and_back};
ghost use Rattle.v_frame_rgb.specs.declared.color.Color.{Color};
ghost use Rattle.v_frame_rgb.specs.declared.standard.Standard.{Standard};
ghost use Rattle.v_frame_rgb.specs.declared.standard.ColorRange.{ColorRange};

/// A sample is the difference divided by the scale, rounded to the nearest integer, halves up, and clipped to a byte.
pub fn samples_are_clamped_quotients()
    ensures { (scale bright dark : ℕ) → 0 < scale → pos (sample_of scale bright dark)
        ≡ int_max (pos 0) (int_min (int_div_euclid (pos (bright + scale / 2) -ℤ pos dark) (pos scale)) (pos 255)) }
{}

/// Before rounding, each channel of a color differs by at most 0.01 from the value that the fractions of the standard define.
pub fn colors_are_near_the_standards()
    ensures red { (standard : Standard) (range : ColorRange) (y u v : ℕ) → y < 256 → u < 256 → v < 256
        → RedIsNear standard range y u v }
    ensures green { (standard : Standard) (range : ColorRange) (y u v : ℕ) → y < 256 → u < 256 → v < 256
        → GreenIsNear standard range y u v }
    ensures blue { (standard : Standard) (range : ColorRange) (y u v : ℕ) → y < 256 → u < 256 → v < 256
        → BlueIsNear standard range y u v }
{}

/// Before rounding, each sample differs by at most 0.01 from the value that the fractions of the standard define.
pub fn samples_are_near_the_standards()
    ensures luma { (standard : Standard) (range : ColorRange) (color : Color) → HasBytes color
        → LumaIsNear standard range color }
    ensures chroma_u { (standard : Standard) (range : ColorRange) (color : Color) → HasBytes color
        → ChromaUIsNear standard range color }
    ensures chroma_v { (standard : Standard) (range : ColorRange) (color : Color) → HasBytes color
        → ChromaVIsNear standard range color }
{}

/// A color is converted to 8-bit samples and back. Then red and green differ from the original by at most 1. Blue differs by at
/// most 1 in full range and by at most 2 in limited range.
pub fn colors_come_back()
    ensures { (standard : Standard) (range : ColorRange) (color : Color) → HasBytes color
        → ComesBack range color (and_back standard range color) }
{}

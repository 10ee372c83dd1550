//! Moves rows of samples to the top bits of their words, and back.
ghost use Rattle.std.specs.Prelude.{ℕ, ◌≡◌, ◌-◌, ◌*◌, ◌/◌, ◌%◌, ◌^◌, ◌<◌, ◌≤◌, length};
ghost use Rattle.v_frame.specs.Prelude.{strided_rows, KeepsRest, RowsFit};
ghost use Rattle.v_frame_ops.specs.Change.{mapped};

use v_frame_ops::rows::map_pixels;

/// Moves each sample of the rows from the low bits to the top bits of its 16-bit word: it is multiplied by 2 to the power of
/// `16 - bit_depth`, modulo 2^16. `bit_depth` is from 1 to 16. Bits of a sample above `bit_depth` are lost.
///
/// `width`, `height` and `stride` describe the rows in `buffer`, in pixels.
pub fn to_top_bits(buffer: &mut [u16], width: usize, height: usize, stride: usize, bit_depth: u8)
    requires fit { RowsFit width height stride (length buffer.old) }
    requires some { 0 < bit_depth }
    requires at_most { bit_depth ≤ 16 }
    ensures table { strided_rows width height stride buffer.new
        ≡ mapped (mapped (λ p. p * 2 ^ (16 - bit_depth) % 2 ^ 16))
        (strided_rows width height stride buffer.old) }
    ensures rest { KeepsRest width height stride buffer.old buffer.new }
{
    let unused = 16 - u32::from(bit_depth);
    map_pixels(buffer, width, height, stride, |p| p << unused);
}

/// Moves each sample of the rows from the top bits to the low bits of its 16-bit word: it is divided by 2 to the power of `16 -
/// bit_depth`, rounded down. `bit_depth` is from 1 to 16. The bits below the sample are lost.
///
/// `width`, `height` and `stride` describe the rows in `buffer`, in pixels.
pub fn from_top_bits(buffer: &mut [u16], width: usize, height: usize, stride: usize, bit_depth: u8)
    requires fit { RowsFit width height stride (length buffer.old) }
    requires some { 0 < bit_depth }
    requires at_most { bit_depth ≤ 16 }
    ensures table { strided_rows width height stride buffer.new
        ≡ mapped (mapped (λ p. p / 2 ^ (16 - bit_depth)))
        (strided_rows width height stride buffer.old) }
    ensures rest { KeepsRest width height stride buffer.old buffer.new }
{
    let unused = 16 - u32::from(bit_depth);
    map_pixels(buffer, width, height, stride, |p| p >> unused);
}

//! Moves the samples of planes to the top bits of their words, and back. Padding is unchanged.
ghost use Rattle.std.specs.Prelude.{ℕ, ◌≡◌, ◌-◌, ◌*◌, ◌/◌, ◌%◌, ◌^◌, ◌<◌, ◌≤◌};
ghost use Rattle.v_frame.specs.Prelude.{table_of, KeepsBorder};
ghost use Rattle.v_frame_ops.specs.Change.{mapped};

use v_frame::plane::Plane;
use v_frame_ops::map_pixels;

/// Moves each sample of a plane from the low bits to the top bits of its 16-bit word, as P010 and P012 require: it is
/// multiplied by 2 to the power of `16 - bit_depth`, modulo 2^16. `bit_depth` is from 1 to 16. Bits of a sample above
/// `bit_depth` are lost. The padding is unchanged.
pub fn to_top_bits(plane: &mut Plane<u16>, bit_depth: u8)
    requires some { 0 < bit_depth }
    requires at_most { bit_depth ≤ 16 }
    ensures table { table_of plane.new
        ≡ mapped (mapped (λ p. p * 2 ^ (16 - bit_depth) % 2 ^ 16)) (table_of plane.old) }
    ensures border { KeepsBorder plane.old plane.new }
{
    let unused = 16 - u32::from(bit_depth);
    map_pixels(plane, |p| p << unused);
}

/// Moves each sample of a plane from the top bits to the low bits of its 16-bit word: it is divided by 2 to the power of `16 -
/// bit_depth`, rounded down. `bit_depth` is from 1 to 16. The bits below the sample are lost. The padding is unchanged.
pub fn from_top_bits(plane: &mut Plane<u16>, bit_depth: u8)
    requires some { 0 < bit_depth }
    requires at_most { bit_depth ≤ 16 }
    ensures table { table_of plane.new
        ≡ mapped (mapped (λ p. p / 2 ^ (16 - bit_depth))) (table_of plane.old) }
    ensures border { KeepsBorder plane.old plane.new }
{
    let unused = 16 - u32::from(bit_depth);
    map_pixels(plane, |p| p >> unused);
}

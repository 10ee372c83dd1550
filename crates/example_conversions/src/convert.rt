//! Conversions of bit depths and types of pixels.
ghost use Rattle.std.specs.Prelude.{◌≡◌, ◌/◌, ◌+◌, ◌-◌, ◌*◌, ◌<◌, ℕ, min, nat_lt, if◌then◌else◌};
ghost use Rattle.std.specs.Bool.{OnTrue, OnFalse};
ghost use Rattle.v_frame.specs.Prelude.{one_byte, pixel_at, table_of, tables_of, two_bytes, KeepsBorder, KeepsBorders};
ghost use Rattle.v_frame_convert.specs.Prelude.{converted, converted_tables, FramesFit, IsSubsampledSize};

use v_frame::frame::Frame;
use v_frame::plane::{Plane, PlaneRef};
use v_frame_convert::{convert_depth, convert_frame, frames_fit, map_into, upscale};

/// Converts an 8-bit picture to 10 bits.
pub fn widen(source: &PlaneRef<'_, u8>, target: &mut Plane<u16>)
    requires wide { source.now.geometry.width ≡ target.old.geometry.width }
    requires high { source.now.geometry.height ≡ target.old.geometry.height }
    ensures table { table_of target.new ≡ converted (converted (λ p. p * 4)) (table_of source.now) }
    ensures border { KeepsBorder target.old target.new }
{
    map_into(source, target, |p: u8| u16::from(p) * 4);
}

/// Converts a 10-bit picture to 8 bits, with each value rounded to the nearest integer.
pub fn narrow(source: &PlaneRef<'_, u16>, target: &mut Plane<u8>)
    requires wide { source.now.geometry.width ≡ target.old.geometry.width }
    requires high { source.now.geometry.height ≡ target.old.geometry.height }
    ensures table { table_of target.new
        ≡ converted (converted (λ p. min ((p + 2) / 4) 255)) (table_of source.now) }
    ensures border { KeepsBorder target.old target.new }
{
    convert_depth(source, target, 10, 8);
}

/// Writes a black-and-white picture that shows which pixels of `source` have at least the value `least`.
pub fn threshold(source: &PlaneRef<'_, u16>, target: &mut Plane<u8>, least: u16)
    requires wide { source.now.geometry.width ≡ target.old.geometry.width }
    requires high { source.now.geometry.height ≡ target.old.geometry.height }
    ensures table { table_of target.new
        ≡ converted (converted (λ p. if nat_lt p least then 0 else 255)) (table_of source.now) }
    ensures border { KeepsBorder target.old target.new }
{
    map_into(source, target, |p: u16| if p < least { 0 } else { 255 });
}

/// Enlarges a chroma plane of a 4:2:0 frame to the size of the luma plane.
pub fn chroma_at_full_size(source: &PlaneRef<'_, u8>, target: &mut Plane<u8>)
    requires wide { IsSubsampledSize target.old.geometry.width 2 source.now.geometry.width }
    requires high { IsSubsampledSize target.old.geometry.height 2 source.now.geometry.height }
    ensures pixels { (x y : ℕ) → x < target.old.geometry.width → y < target.old.geometry.height
        → pixel_at (table_of target.new) x y ≡ pixel_at (table_of source.now) (x / 2) (y / 2) }
    ensures border { KeepsBorder target.old target.new }
{
    upscale(source, target, 2, 2);
}

/// Converts an 8-bit frame to the bit depth and chroma format of `target`, if the sizes of the planes correspond. Returns
/// whether they do. If they do not, `target` stays unchanged.
pub fn show_frame(source: &Frame<u8>, target: &mut Frame<u16>) -> bool
    ensures shown { OnTrue result (tables_of target.new
        ≡ converted_tables one_byte two_bytes source.now target.old) }
    ensures borders { OnTrue result (KeepsBorders target.old target.new) }
    ensures kept { OnFalse result (target.new ≡ target.old) }
{
    if !frames_fit(source, target) {
        return false;
    }
    convert_frame(source, target);
    true
}

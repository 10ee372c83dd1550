//! Samples above the greatest value of their bit depth.
ghost use Rattle.std.specs.Prelude.{◌≡◌, ◌≤◌, ◌↔◌, ◌/◌, ◌-◌, ◌^◌, All, IfSome, false, option_map};
ghost use Rattle.std.specs.Int.NonZero.{non_zero_u8_get};
ghost use Rattle.v_frame.specs.Prelude.{row_major, table_of, tables_of};
ghost use Rattle.yuv_pictures.specs.Above.{most_at, AreUpTo, IsUpTo};

use v_frame::frame::Frame;
use v_frame::pixel::Pixel;
use v_frame::plane::Plane;
use v_frame_statistics::maximum;

/// Returns the greatest value of a bit depth of up to 16 bits.
pub fn greatest_value(bit_depth: u8) -> u16
    ensures { result ≡ most_at bit_depth }
{
    if bit_depth == 0 {
        return 0;
    }
    u16::MAX >> 16u8.saturating_sub(bit_depth)
}

/// Returns whether a sample of a frame is above the greatest value of its bit depth.
pub fn has_sample_above<T: Pixel>(frame: &Frame<T>) -> bool
    ensures { (result ≡ false) ↔ AreUpTo T.form (most_at (non_zero_u8_get frame.now.bit_depth))
        (tables_of frame.now) }
{
    let most = greatest_value(frame.bit_depth.get());
    plane_exceeds(&frame.y_plane, most)
        || chroma_exceeds(&frame.u_plane, most)
        || chroma_exceeds(&frame.v_plane, most)
}

/// Returns whether a sample of a plane is above `most`.
fn plane_exceeds<T: Pixel>(plane: &Plane<T>, most: u16) -> bool
    ensures { (result ≡ false) ↔ IsUpTo T.form most (table_of plane.now) }
{
    maximum(&plane.as_plane_ref()).into_u16() > most
}

/// Returns whether a sample of a chroma plane is above `most`. Returns `false` if there is no plane.
fn chroma_exceeds<T: Pixel>(plane: &Option<Plane<T>>, most: u16) -> bool
    ensures { (result ≡ false) ↔ IfSome (option_map table_of plane.now) (IsUpTo T.form most) }
{
    match plane {
        Some(plane) => plane_exceeds(plane, most),
        None => false,
    }
}

//! The meaning of `==` for frames.
ghost use Rattle.std.specs.Prelude.{◌≡◌, ◌↔◌, IsTrue};

use crate::frame::Frame;
use crate::pixel::Pixel;

/// Two frames are equal if and only if all five fields are equal.
pub fn frames_are_equal<T: Pixel>(a: &Frame<T>, b: &Frame<T>) -> bool
    ensures { IsTrue result ↔ (a.now ≡ b.now) }
{
    a == b
}

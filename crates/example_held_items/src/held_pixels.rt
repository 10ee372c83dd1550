//! Pixels of a plane that are kept while the iterator yields others, and written after the iterator is dropped.
//!
//! The hand-written proof in `proofs/held_pixels/write_ends` shows which pixels the plane has at the end. A caller of such a
//! function needs no proof.
ghost use Rattle.std.specs.Prelude.{◌<◌, ◌≡◌, length};
ghost use Rattle.v_frame.specs.Prelude.{KeepsBorder, row_major, table_of};
ghost use Rattle.example_held_items.specs.HeldPixels.{with_ends};

use v_frame::laws::dropped_pixels_keep_their_values;
use v_frame::pixel::Pixel;
use v_frame::plane::Plane;

/// Writes the first visible pixel and the last two. All other pixels and the border are unchanged.
///
/// The three pixels are taken from both ends alternately, and are kept. They are written in a different order from the one in
/// which they were taken, and the first pixel is written twice.
pub fn write_ends<T: Copy>(plane: &mut Plane<T>, first: T, before_last: T, last: T)
    requires { 2 < length (row_major (table_of plane.old)) }
    ensures pixels { row_major (table_of plane.new)
        ≡ with_ends first before_last last (row_major (table_of plane.old)) }
    ensures border { KeepsBorder plane.old plane.new }
{
    let mut pixels = plane.pixels_mut();
    let (Some(end), Some(start), Some(before_end)) = (
        pixels.next_back(),
        pixels.next(),
        pixels.next_back(),
    ) else {
        return;
    };
    *start = last;
    *before_end = before_last;
    *start = first;
    *end = last;
    dropped_pixels_keep_their_values::<T>();
}

/// Writes `mark` over the first and the last visible pixel, and `other` over the last but one.
pub fn mark_ends<T: Pixel>(plane: &mut Plane<T>, mark: T, other: T)
    requires { 2 < length (row_major (table_of plane.old)) }
    ensures pixels { row_major (table_of plane.new)
        ≡ with_ends mark other mark (row_major (table_of plane.old)) }
    ensures border { KeepsBorder plane.old plane.new }
{
    write_ends(plane, mark, other, mark);
}

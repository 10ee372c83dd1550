//! The iterator over the bytes of the visible pixels of a plane.
ghost use Rattle.std.specs.Prelude.{◌≡◌, ◌*◌, ◌^◌, ◌<◌, [], ◌∷◌, ◌++◌, length, None, Some, IfSome, ⊤};
ghost use Rattle.std.specs.Iterator.{at_most, UpTo};
ghost use Rattle.std.specs.Iterator.SizeHint.{IsWithinCount};
ghost use Rattle.std.specs.Map.Iter.{TakesFirst, TakesLast};
ghost use Rattle.v_frame_raster.specs.Raster.{table_of};
ghost use Rattle.v_frame_plane.specs.Cursor.{other_byte};
ghost use Rattle.v_frame_raster.specs.Pixel.{bytes_of, byte_list};

use crate::pixels::Pixels;
use crate::plane_ref::PlaneRef;
use std::alloc::AllocError;
use std::fmt;
use std::iter::FusedIterator;
use std::marker::Model;
use v_frame_raster::pixel::Pixel;

/// A double-ended iterator over the bytes of the visible pixels of a plane, pixel by pixel. Each pixel is encoded in
/// little-endian order.
///
/// From the back, the high byte of the last pixel comes first. If one end has yielded the first of two bytes of a pixel, the
/// other end may yield the second. A contract sees the iterator as the list of the remaining bytes. The iterator replaces the
/// unnamed one that `Plane::byte_data` of `v_frame` 0.7.0 returns.
#[derive(Drop)]
pub struct ByteData<'a, T: Pixel> {
    // The pixel whose low byte was yielded, the pixels that were not begun, and the pixel whose high byte was yielded.
    front: Option<T>,
    pixels: Pixels<'a, T>,
    back: Option<T>,
}

impl<'a, T: Pixel> Model for ByteData<'a, T> {
    ghost use Rattle.std.specs.Prelude.{List, ℕ};
    ghost use Rattle.v_frame_plane.specs.Cursor.{bytes_ahead, PixelsAreBegun};

    ghost Value = { List ℕ };

    ghost view = { λ a. bytes_ahead T.form a.front a.pixels a.back };

    ghost invariant = { λ a. PixelsAreBegun T.form.size a.front a.pixels a.back };
}

impl<'a, T: Pixel> ByteData<'a, T> {
    /// Returns an iterator over the bytes of the visible pixels of `plane`.
    #[tactic(auto, using(crate::proofs::iterators::BegunPixels::few_bytes))]
    pub(crate) fn new(plane: &PlaneRef<'a, T>) -> Self
        ensures bytes { result ≡ byte_list T.form (table_of plane.now) }
        ensures count { length result
            ≡ plane.now.geometry.width * plane.now.geometry.height * T.form.size }
        ensures bound { length result < 2 ^ 63 }
    {
        ByteData {
            front: None,
            pixels: Pixels::new(plane),
            back: None,
        }
    }

    /// Returns a copy of the iterator.
    fn duplicate(&self) -> Self
        ensures { result ≡ self.now }
    {
        ByteData {
            front: self.front,
            pixels: self.pixels.duplicate(),
            back: self.back,
        }
    }
}

/// Returns the low byte of a pixel, and stores the pixel in `front` if it has a second byte.
#[inline]
fn begin_front<T: Pixel>(pixel: T, front: &mut Option<T>) -> u8
    requires { front.old ≡ None }
    ensures bytes { bytes_of T.form.size (T.form.value pixel)
        ≡ result ∷ other_byte T.form 1 front.new }
    ensures low_drawn { IfSome front.new (λ pixel. T.form.size ≡ 2) }
{
    if T::BYTES == 2 {
        *front = Some(pixel);
    }
    pixel.le_byte(0)
}

/// Returns the last byte of a pixel, and stores the pixel in `back` if it has a second byte.
#[inline]
fn begin_back<T: Pixel>(pixel: T, back: &mut Option<T>) -> u8
    requires { back.old ≡ None }
    ensures bytes { bytes_of T.form.size (T.form.value pixel)
        ≡ other_byte T.form 0 back.new ++ result ∷ [] }
    ensures high_drawn { IfSome back.new (λ pixel. T.form.size ≡ 2) }
{
    if T::BYTES == 2 {
        *back = Some(pixel);
    }
    pixel.le_byte(T::BYTES - 1)
}

impl<'a, T: Pixel> Iterator for ByteData<'a, T> {
    type Item = u8;

    ghost next_gives = { TakesFirst (λ byte. byte) };

    ghost remaining = { λ bytes. at_most (length bytes) };

    #[inline]
    #[tactic(auto, using(crate::proofs::iterators::BegunPixels::bytes_taken))]
    fn next(&mut self) -> Option<u8> {
        if let Some(pixel) = self.front.take() {
            return Some(pixel.le_byte(1));
        }
        match self.pixels.next() {
            Some(pixel) => Some(begin_front(pixel, &mut self.front)),
            None => Some(self.back.take()?.le_byte(0)),
        }
    }

    #[inline]
    fn size_hint(&self) -> (usize, Option<usize>)
        ensures lower { IsWithinCount result.0 (at_most (length self.now)) }
        ensures upper { IfSome result.1 (UpTo (at_most (length self.now))) }
        ensures exact { result ≡ (length self.now, Some (length self.now)) }
    {
        let len = self.len();
        (len, Some(len))
    }
}

impl<'a, T: Pixel> DoubleEndedIterator for ByteData<'a, T> {
    ghost next_back_gives = { TakesLast (λ byte. byte) };

    #[inline]
    #[tactic(auto, using(crate::proofs::iterators::BegunPixels::bytes_taken))]
    fn next_back(&mut self) -> Option<u8> {
        if let Some(pixel) = self.back.take() {
            return Some(pixel.le_byte(0));
        }
        match self.pixels.next_back() {
            Some(pixel) => Some(begin_back(pixel, &mut self.back)),
            None => Some(self.front.take()?.le_byte(1)),
        }
    }
}

impl<'a, T: Pixel> ExactSizeIterator for ByteData<'a, T> {
    #[inline]
    #[tactic(auto, using(crate::proofs::iterators::BegunPixels::count_of_bytes, crate::proofs::iterators::BegunPixels::one_at_most))]
    fn len(&self) -> usize {
        usize::from(self.front.is_some())
            + self.pixels.len() * T::BYTES
            + usize::from(self.back.is_some())
    }
}

impl<'a, T: Pixel> FusedIterator for ByteData<'a, T> {}

impl<'a, T: Pixel> Clone for ByteData<'a, T> {
    ghost is_clone = { λ bytes copy. copy ≡ bytes };

    ghost is_infallible = { λ _. ⊤ };

    fn clone(&self) -> Result<Self, AllocError> {
        Ok(self.duplicate())
    }
}

/// Prints the remaining bytes as a list.
impl<'a, T: Pixel> fmt::Debug for ByteData<'a, T> {
    fn fmt<W: fmt::Write>(&self, f: &mut fmt::Formatter<W>) -> fmt::Result {
        f.debug_list().entries(self.duplicate()).finish()
    }
}

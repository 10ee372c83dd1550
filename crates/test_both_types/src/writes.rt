//! Rows borrowed for writing, pixels changed by a function, and interleaved rows.

ghost use Rattle.std.specs.Prelude.{◌≡◌, IfSome, vec_len};

use crate::text::push_plane;
use std::alloc::Global;
use v_frame::pixel::Pixel;
use v_frame::plane::{Plane, PlaneRef, split_row_mut, visible_rows_mut};
use v_frame_ops::map_pixels;
use v_frame_semi_planar::rows::{deinterleave_row, interleave_row};

/// Changes a plane of 2 rows with each call that borrows rows, and then all its pixels.
pub fn push_writes<T: Pixel>(text: &mut String, plane: &mut Plane<T>) -> Option<()> {
    plane.row_mut(1)?.fill(T::from_u8(1));
    push_plane(text, "second row", &plane.as_plane_ref())?;
    let geometry = plane.geometry();
    if geometry.height() < 2 {
        return None;
    }
    let (row, _) = split_row_mut(plane.data_mut(), geometry, 0);
    row.fill(T::from_u8(2));
    push_plane(text, "first row", &plane.as_plane_ref())?;
    let (first, second) = visible_rows_mut(plane.data_mut(), geometry, 0, 1);
    first.fill(T::from_u8(3));
    second.fill(T::from_u8(4));
    push_plane(text, "both rows", &plane.as_plane_ref())?;
    map_pixels(plane, |_| T::from_u8(5));
    push_plane(text, "all pixels", &plane.as_plane_ref())
}

/// Interleaves the two rows of a plane of 4 columns, and splits them again.
pub fn push_pairs<T: Pixel>(
    alloc: Global,
    text: &mut String,
    plane: &PlaneRef<'_, T>,
) -> Option<()> {
    if plane.height() < 2 {
        return None;
    }
    let (first, second) = (plane.visible_row(0), plane.visible_row(1));
    if first.len() != 4 || second.len() != 4 {
        return None;
    }
    let mut row = pixels::<T>(alloc, 8)?;
    interleave_row(row.as_mut_slice(), first, second);
    push_values(text, "interleaved", row.as_slice())?;
    let (mut apart, mut other) = (pixels::<T>(alloc, 4)?, pixels::<T>(alloc, 4)?);
    deinterleave_row(row.as_slice(), apart.as_mut_slice(), other.as_mut_slice());
    push_values(text, "apart", apart.as_slice())?;
    push_values(text, "and", other.as_slice())
}

/// Returns `count` pixels.
fn pixels<T: Pixel>(alloc: Global, count: usize) -> Option<Vec<T>>
    ensures { IfSome result (λ pixels. vec_len pixels ≡ count) }
{
    let mut pixels = Vec::new(alloc);
    pixels.resize(count, T::ZERO).ok()?;
    Some(pixels)
}

/// Appends a line with a name and the values of pixels.
fn push_values<T: Pixel>(text: &mut String, name: &str, pixels: &[T]) -> Option<()> {
    text.push_str(name).ok()?;
    for pixel in pixels {
        let value = pixel.into_u16();
        write!(text, " {value}").ok()?;
    }
    text.push('\n').ok()
}

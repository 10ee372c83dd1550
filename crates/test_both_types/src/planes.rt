//! Calls on planes.

use crate::text::push_plane;
use std::alloc::Global;
use v_frame::pixel::Pixel;
use v_frame::plane::{Plane, PlaneRef};
use v_frame_ops::{blend_region, blend_region_with_mask};
use v_frame_statistics::{maximum, minimum, rows, sum, sum_and_count, variance_sums};

/// Appends the sum of the pixels, the sum of their squares, and the extremes.
pub fn push_sums<T: Pixel>(text: &mut String, plane: &PlaneRef<'_, T>) -> Option<()> {
    let sum = sum(plane);
    let mean = sum_and_count(plane);
    let (whole, count) = (mean.sum, mean.count);
    writeln!(text, "sum {sum}, mean {whole}/{count}").ok()?;
    let sums = variance_sums(plane);
    let (sum, squares, count) = (sums.sum, sums.sum_of_squares, sums.count);
    writeln!(text, "variance of {sum}, {squares}, {count}").ok()?;
    let (least, greatest) = (minimum(plane).into_u16(), maximum(plane).into_u16());
    let part = rows::sum(&plane.as_rows_ref().region(1, 0, 2, 2)?);
    writeln!(text, "from {least} to {greatest}, in the middle {part}").ok()
}

/// Appends a pixel, a rectangle that extends into the padding, and the bytes of a plane.
pub fn push_pixels<T: Pixel>(
    alloc: Global,
    text: &mut String,
    plane: &PlaneRef<'_, T>,
) -> Option<()> {
    if plane.width() < 2 || plane.height() < 2 {
        return None;
    }
    let pixel = plane.visible_pixel(1, 1).into_u16();
    writeln!(text, "pixel {pixel}").ok()?;
    push_plane(text, "with border", &plane.region_with_border(-1, 0, 3, 2)?)?;
    let mut bytes = Vec::new(alloc);
    bytes.resize(plane.byte_len(), 0).ok()?;
    plane.write_bytes(bytes.as_mut_slice());
    text.push_str("bytes").ok()?;
    for byte in bytes.as_slice() {
        write!(text, " {byte}").ok()?;
    }
    text.push('\n').ok()
}

/// Blends the first two pixels of a plane over another plane, first with a weight and then with a mask.
pub fn push_blends<T: Pixel>(
    text: &mut String,
    source: &Plane<T>,
    mask: &Plane<u8>,
    target: &mut Plane<T>,
) -> Option<()> {
    let whole = source.geometry().whole_buffer();
    let (width, height) = (whole.width(), whole.height());
    writeln!(text, "in a buffer of {width} by {height}").ok()?;
    let source = PlaneRef::new(source.geometry(), source.data())?.region(0, 0, 2, 1)?;
    let mask = mask.as_plane_ref().region(0, 0, 2, 1)?;
    if target.width() < 4 || target.height() < 2 {
        return None;
    }
    blend_region(&source, target, 2, 1, 64);
    push_plane(text, "blended", &target.as_plane_ref())?;
    blend_region_with_mask(&source, &mask, target, 1, 0);
    push_plane(text, "by a mask", &target.as_plane_ref())
}

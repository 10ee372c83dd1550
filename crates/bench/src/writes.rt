//! Cases that write planes or bytes.

use v_frame::frame::Frame;
use v_frame::pixel::{Pixel, fill_row};
use v_frame::plane::{CopyError, Plane};
use v_frame_ops::{downscale, fill, pad};

/// Fills all rows, which are borrowed with `row_mut`.
#[inline(never)]
pub fn fill_by_row_mut<T: Pixel>(plane: &mut Plane<T>, value: T) {
    for y in 0..plane.height() {
        if let Some(row) = plane.row_mut(y) {
            fill_row(row, value);
        }
    }
}

/// Fills all rows, which are borrowed with the iterator `rows_mut`.
#[inline(never)]
pub fn fill_by_rows_mut<T: Pixel>(plane: &mut Plane<T>, value: T) {
    for row in plane.rows_mut() {
        fill_row(row, value);
    }
}

/// Writes all pixels with `pixel_mut`.
#[inline(never)]
pub fn fill_by_pixel_mut<T: Pixel>(plane: &mut Plane<T>, value: T) {
    for y in 0..plane.height() {
        for x in 0..plane.width() {
            if let Some(pixel) = plane.pixel_mut(x, y) {
                *pixel = value;
            }
        }
    }
}

/// Writes all pixels with the iterator `pixels_mut`.
#[inline(never)]
pub fn fill_by_pixels_mut<T: Pixel>(plane: &mut Plane<T>, value: T) {
    for pixel in plane.pixels_mut() {
        *pixel = value;
    }
}

/// Writes the pixels at these places.
#[inline(never)]
pub fn fill_places<T: Pixel>(plane: &mut Plane<T>, places: &[(usize, usize)], value: T) {
    for &(x, y) in places {
        if let Some(pixel) = plane.pixel_mut(x, y) {
            *pixel = value;
        }
    }
}

/// Fills a plane with one call.
#[inline(never)]
pub fn fill_plane<T: Pixel>(plane: &mut Plane<T>, value: T) {
    fill(plane, value);
}

/// Fills the padding of a plane.
#[inline(never)]
pub fn pad_plane<T: Pixel>(plane: &mut Plane<T>) {
    pad(plane);
}

/// Writes a plane in half its size into the U plane of a frame.
#[inline(never)]
pub fn halve<T: Pixel>(source: &Plane<T>, target: &mut Frame<T>) {
    let Some(half) = target.plane_mut(1) else {
        return;
    };
    let is_wide = source.width() / 2 == half.width() && source.width() % 2 == 0;
    let is_high = source.height() / 2 == half.height() && source.height() % 2 == 0;
    if is_wide && is_high {
        downscale(&source.as_plane_ref(), half);
    }
}

/// Copies pixels into a plane.
#[inline(never)]
pub fn copy_pixels<T: Pixel>(plane: &mut Plane<T>, source: &[T]) -> Result<(), CopyError> {
    plane.copy_from_slice(source)
}

/// Copies bytes without gaps between the rows into a plane.
#[inline(never)]
pub fn copy_packed<T: Pixel>(plane: &mut Plane<T>, source: &[u8]) -> Result<(), CopyError> {
    plane.copy_from_u8_slice(source)
}

/// Copies bytes with a stride into a plane.
#[inline(never)]
pub fn copy_strided<T: Pixel>(
    plane: &mut Plane<T>,
    source: &[u8],
    stride: usize,
) -> Result<(), CopyError> {
    plane.copy_from_u8_slice_with_stride(source, stride)
}

/// Writes the bytes of a plane into a slice.
#[inline(never)]
pub fn copy_to_bytes<T: Pixel>(plane: &Plane<T>, target: &mut [u8]) {
    for (place, byte) in target.iter_mut().zip(plane.byte_data()) {
        *place = byte;
    }
}

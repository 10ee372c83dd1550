//! Cases that read planes.

use v_frame::pixel::Pixel;
use v_frame::plane::Plane;
use v_frame_ops::{sum_of_absolute_differences, sum_of_squared_errors};

/// Adds one pixel to a sum.
fn added<T: Pixel>(sum: u64, pixel: T) -> u64 {
    sum.wrapping_add(u64::from(pixel.into_u16()))
}

/// Compares two planes, padding included.
#[inline(never)]
pub fn are_equal<T: Pixel>(a: &Plane<T>, b: &Plane<T>) -> bool {
    a == b
}

/// Adds up the pixels of all rows, which are read with `row`.
#[inline(never)]
pub fn sum_by_row<T: Pixel>(plane: &Plane<T>) -> u64 {
    let mut sum = 0;
    for y in 0..plane.height() {
        if let Some(row) = plane.row(y) {
            for pixel in row {
                sum = added(sum, *pixel);
            }
        }
    }
    sum
}

/// Adds up the pixels of all rows, which are read with the iterator `rows`.
#[inline(never)]
pub fn sum_by_rows<T: Pixel>(plane: &Plane<T>) -> u64 {
    let mut sum = 0;
    for row in plane.rows() {
        for pixel in row {
            sum = added(sum, *pixel);
        }
    }
    sum
}

/// Adds up all pixels, which are read with `pixel`.
#[inline(never)]
pub fn sum_by_pixel<T: Pixel>(plane: &Plane<T>) -> u64 {
    let mut sum = 0;
    for y in 0..plane.height() {
        for x in 0..plane.width() {
            if let Some(pixel) = plane.pixel(x, y) {
                sum = added(sum, pixel);
            }
        }
    }
    sum
}

/// Adds up all pixels, which are read with the iterator `pixels`.
#[inline(never)]
pub fn sum_by_pixels<T: Pixel>(plane: &Plane<T>) -> u64 {
    let mut sum = 0;
    for pixel in plane.pixels() {
        sum = added(sum, pixel);
    }
    sum
}

/// Adds up all pixels with the iterator `pixels`, from the last pixel to the first.
#[inline(never)]
pub fn sum_by_pixels_back<T: Pixel>(plane: &Plane<T>) -> u64 {
    let mut sum = 0;
    for pixel in plane.pixels().rev() {
        sum = added(sum, pixel);
    }
    sum
}

/// Adds up the pixels at these places.
#[inline(never)]
pub fn sum_of_places<T: Pixel>(plane: &Plane<T>, places: &[(usize, usize)]) -> u64 {
    let mut sum = 0;
    for &(x, y) in places {
        if let Some(pixel) = plane.pixel(x, y) {
            sum = added(sum, pixel);
        }
    }
    sum
}

/// Returns the number of pixels that differ.
#[inline(never)]
pub fn count_differing<T: Pixel>(a: &Plane<T>, b: &Plane<T>) -> u64 {
    let mut count = 0u64;
    for (one, other) in a.pixels().zip(b.pixels()) {
        if one != other {
            count = count.wrapping_add(1);
        }
    }
    count
}

/// Adds up the bytes of all pixels.
#[inline(never)]
pub fn sum_by_byte_data<T: Pixel>(plane: &Plane<T>) -> u64 {
    let mut sum = 0u64;
    for byte in plane.byte_data() {
        sum = sum.wrapping_add(u64::from(byte));
    }
    sum
}

/// Returns the sum of absolute differences of two planes.
#[inline(never)]
pub fn absolute_differences<T: Pixel>(a: &Plane<T>, b: &Plane<T>) -> u64 {
    if a.width() != b.width() || a.height() != b.height() {
        return 0;
    }
    let sum = sum_of_absolute_differences(&a.as_plane_ref(), &b.as_plane_ref());
    u64::try_from(sum).unwrap_or(0)
}

/// Returns the sum of squared errors of two planes.
#[inline(never)]
pub fn squared_errors<T: Pixel>(a: &Plane<T>, b: &Plane<T>) -> u64 {
    if a.width() != b.width() || a.height() != b.height() {
        return 0;
    }
    let sum = sum_of_squared_errors(&a.as_plane_ref(), &b.as_plane_ref());
    u64::try_from(sum).unwrap_or(0)
}

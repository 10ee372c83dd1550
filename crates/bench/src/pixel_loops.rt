//! Loops that users write with `pixel` and `pixel_mut`.
//!
//! A loop that would call `unwrap` stops if there is no pixel, which costs the same.

use v_frame::pixel::Pixel;
use v_frame::plane::Plane;

/// Returns the pixel with the low byte of a number.
fn low_byte<T: Pixel>(number: usize) -> T {
    T::from_u8((number % 256) as u8)
}

/// Writes the same value to each pixel.
#[inline(never)]
pub fn fill_by_unwrap<T: Pixel>(plane: &mut Plane<T>, value: T) {
    let (width, height) = (plane.width(), plane.height());
    for y in 0..height {
        for x in 0..width {
            let Some(pixel) = plane.pixel_mut(x, y) else {
                return;
            };
            *pixel = value;
        }
    }
}

/// Writes a value that depends on the column to each pixel that exists.
#[inline(never)]
pub fn ramp_by_pixel_mut<T: Pixel>(plane: &mut Plane<T>) {
    let (width, height) = (plane.width(), plane.height());
    for y in 0..height {
        for x in 0..width {
            if let Some(pixel) = plane.pixel_mut(x, y) {
                *pixel = low_byte(x);
            }
        }
    }
}

/// Writes a value that depends on the column to each pixel.
#[inline(never)]
pub fn ramp_by_unwrap<T: Pixel>(plane: &mut Plane<T>) {
    let (width, height) = (plane.width(), plane.height());
    for y in 0..height {
        for x in 0..width {
            let Some(pixel) = plane.pixel_mut(x, y) else {
                return;
            };
            *pixel = low_byte(x);
        }
    }
}

/// Changes the lowest bit of each pixel.
#[inline(never)]
pub fn change_by_unwrap<T: Pixel>(plane: &mut Plane<T>) {
    let (width, height) = (plane.width(), plane.height());
    for y in 0..height {
        for x in 0..width {
            let Some(pixel) = plane.pixel_mut(x, y) else {
                return;
            };
            if let Some(changed) = T::try_from_u16(pixel.into_u16() ^ 1) {
                *pixel = changed;
            }
        }
    }
}

/// Adds up all pixels.
#[inline(never)]
pub fn sum_by_unwrap<T: Pixel>(plane: &Plane<T>) -> u64 {
    let (width, height) = (plane.width(), plane.height());
    let mut sum = 0u64;
    for y in 0..height {
        for x in 0..width {
            let Some(pixel) = plane.pixel(x, y) else {
                return sum;
            };
            sum = sum.wrapping_add(u64::from(pixel.into_u16()));
        }
    }
    sum
}

/// Writes the mean of a pixel of `source` and its left, right and upper neighbors to the same place of `target`.
#[inline(never)]
pub fn mean_by_unwrap<T: Pixel>(source: &Plane<T>, target: &mut Plane<T>) {
    let (width, height) = (source.width(), source.height());
    for y in 1..height {
        for x in 1..width.saturating_sub(1) {
            let Some(mean) = mean_at(source, x, y) else {
                return;
            };
            let Some(pixel) = target.pixel_mut(x, y) else {
                return;
            };
            *pixel = mean;
        }
    }
}

/// Returns the mean of a pixel and three of its neighbors, if all of them exist.
#[inline]
fn mean_at<T: Pixel>(source: &Plane<T>, x: usize, y: usize) -> Option<T> {
    let left = u32::from(source.pixel(x.wrapping_sub(1), y)?.into_u16());
    let middle = u32::from(source.pixel(x, y)?.into_u16());
    let right = u32::from(source.pixel(x.wrapping_add(1), y)?.into_u16());
    let upper = u32::from(source.pixel(x, y.wrapping_sub(1))?.into_u16());
    let mean = (left + middle + right + upper) / 4;
    T::try_from_u16(u16::try_from(mean).ok()?)
}

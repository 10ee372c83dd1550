//! Rows at half the width and height, in blocks for which the compiler emits vector instructions.
ghost use Rattle.std.specs.Prelude.{◌≡◌, ◌*◌, ◌≤◌, length, take};
ghost use Rattle.v_frame_raster.specs.Pixel.{one_byte, two_bytes};
ghost use Rattle.v_frame_raster.specs.PixelRows.{halved, rounded_mean};

use std::simd::{u8x16, u8x32, u16x8, u16x16, u32x8};

/// Returns the mean of four one-byte pixels, rounded to the nearest integer, halves up.
#[inline(always)]
fn mean_of_bytes(a: u8, b: u8, c: u8, d: u8) -> u8
    ensures { result ≡ rounded_mean a b c d }
{
    ((u16::from(a) + u16::from(b) + u16::from(c) + u16::from(d) + 2) / 4) as u8
}

/// Returns the mean of four two-byte pixels, rounded to the nearest integer, halves up.
#[inline(always)]
fn mean_of_words(a: u16, b: u16, c: u16, d: u16) -> u16
    ensures { result ≡ rounded_mean a b c d }
{
    ((u32::from(a) + u32::from(b) + u32::from(c) + u32::from(d) + 2) / 4) as u16
}

/// Returns the 16 pixels that result from the first 32 pixels of each row. A lane holds two adjacent pixels of one row.
#[inline(always)]
fn half_of_bytes(top: &[u8], bottom: &[u8]) -> u8x16
    requires first { 32 ≤ length top.now }
    requires second { 32 ≤ length bottom.now }
    ensures { result ≡ halved one_byte (take 32 top.now) (take 32 bottom.now) }
{
    let top = u16x16::from_le_bytes(u8x32::from_slice(top));
    let bottom = u16x16::from_le_bytes(u8x32::from_slice(bottom));
    let low = u16x16::splat(255);
    let sums = (top & low) + (top >> 8) + (bottom & low) + (bottom >> 8);
    ((sums + u16x16::splat(2)) >> 2).cast::<u8>()
}

/// Returns the 8 pixels that result from the first 16 pixels of each row. A lane holds two adjacent pixels of one row.
#[inline(always)]
fn half_of_words(top: &[u16], bottom: &[u16]) -> u16x8
    requires first { 16 ≤ length top.now }
    requires second { 16 ≤ length bottom.now }
    ensures { result ≡ halved two_bytes (take 16 top.now) (take 16 bottom.now) }
{
    let top = u32x8::from_le_bytes(u16x16::from_slice(top).to_le_bytes());
    let bottom = u32x8::from_le_bytes(u16x16::from_slice(bottom).to_le_bytes());
    let low = u32x8::splat(65535);
    let sums = (top & low) + (top >> 16) + (bottom & low) + (bottom >> 16);
    ((sums + u32x8::splat(2)) >> 2).cast::<u16>()
}

/// Halves two rows of one-byte pixels into `dst`.
pub fn halve_bytes(dst: &mut [u8], top: &[u8], bottom: &[u8])
    requires top { length top.now ≡ 2 * length dst.old }
    requires bottom { length bottom.now ≡ 2 * length dst.old }
    ensures { dst.new ≡ halved one_byte top.now bottom.now }
{
    let blocks = dst.len() / 16;
    for block in 0..blocks {
        let half = half_of_bytes(&top[32 * block..], &bottom[32 * block..]);
        half.copy_to_slice(&mut dst[16 * block..]);
    }
    // The rest of the row is shorter than a block.
    for i in 16 * blocks..dst.len() {
        dst[i] = mean_of_bytes(top[2 * i], top[2 * i + 1], bottom[2 * i], bottom[2 * i + 1]);
    }
}

/// Halves two rows of two-byte pixels into `dst`.
pub fn halve_words(dst: &mut [u16], top: &[u16], bottom: &[u16])
    requires top { length top.now ≡ 2 * length dst.old }
    requires bottom { length bottom.now ≡ 2 * length dst.old }
    ensures { dst.new ≡ halved two_bytes top.now bottom.now }
{
    let blocks = dst.len() / 8;
    for block in 0..blocks {
        let half = half_of_words(&top[16 * block..], &bottom[16 * block..]);
        half.copy_to_slice(&mut dst[8 * block..]);
    }
    // The rest of the row is shorter than a block.
    for i in 8 * blocks..dst.len() {
        dst[i] = mean_of_words(top[2 * i], top[2 * i + 1], bottom[2 * i], bottom[2 * i + 1]);
    }
}

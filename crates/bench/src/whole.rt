//! Cases that create planes and frames.

use crate::desk::Desk;
use crate::error::BenchError;
use crate::plan::Plan;
use std::alloc::{AllocError, Global};
use v_frame::chroma::ChromaSubsampling;
use v_frame::frame::{Frame, FrameBuilder, FrameError};
use v_frame::pixel::Pixel;
use v_frame::plane::Plane;

/// Builds a frame for a plan.
#[inline(never)]
pub fn build<T: Pixel>(
    alloc: Global,
    plan: Plan,
    format: ChromaSubsampling,
    depth: u8,
) -> Result<Frame<T>, FrameError> {
    let padding = usize::from(plan.padding);
    FrameBuilder::new(
        usize::from(plan.width),
        usize::from(plan.height),
        format,
        depth,
    )
    .luma_padding_left(padding)
    .luma_padding_right(padding)
    .luma_padding_top(padding)
    .luma_padding_bottom(padding)
    .build(alloc)
}

/// Builds a frame, uses one pixel, and drops the frame.
pub fn build_one<T: Pixel>(desk: &Desk<T>, format: ChromaSubsampling) -> Result<u64, BenchError> {
    let mut frame: Frame<T> = build(desk.alloc, desk.plan, format, desk.depth)?;
    let seen = used(&mut frame.y_plane, desk);
    drop(frame);
    Ok(seen)
}

/// Clones a plane, uses one pixel, and drops the clone.
pub fn clone_plane<T: Pixel>(desk: &Desk<T>) -> Result<u64, BenchError> {
    let mut plane = cloned_plane(desk.alloc, &desk.frame.y_plane)?;
    let seen = used(&mut plane, desk);
    drop(plane);
    Ok(seen)
}

/// Clones a frame, uses one pixel, and drops the clone.
pub fn clone_frame<T: Pixel>(desk: &Desk<T>) -> Result<u64, BenchError> {
    let mut frame = cloned_frame(desk.alloc, &desk.frame)?;
    let seen = used(&mut frame.y_plane, desk);
    drop(frame);
    Ok(seen)
}

#[inline(never)]
fn cloned_plane<T: Pixel>(alloc: Global, plane: &Plane<T>) -> Result<Plane<T>, AllocError> {
    plane.clone(alloc)
}

#[inline(never)]
fn cloned_frame<T: Pixel>(alloc: Global, frame: &Frame<T>) -> Result<Frame<T>, AllocError> {
    frame.clone(alloc)
}

/// Writes a pixel of a plane and reads another one, so that the compiler cannot drop the plane.
#[inline(never)]
fn used<T: Pixel>(plane: &mut Plane<T>, desk: &Desk<T>) -> u64 {
    let x = plane.width() / 2;
    if let Some(pixel) = plane.pixel_mut(x, 0) {
        *pixel = desk.value;
    }
    plane
        .pixel(x, plane.height() / 2)
        .map_or(0, |pixel| u64::from(pixel.into_u16()))
}

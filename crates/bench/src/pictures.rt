//! The pixels, bytes and places that the cases work on.

use crate::plan::Plan;
use std::alloc::{AllocError, Global};
use v_frame::pixel::Pixel;

/// The number of places that are read or written in random order.
pub const PLACES: usize = 100_000;

/// Returns the pixel for a number. Its value is below 251, a prime, so that no period fits a row.
pub fn pixel_of<T: Pixel>(number: usize) -> T {
    T::from_u8((number % 251) as u8)
}

/// Returns `count` pixels, counted up from `first`. If `step` is not zero, each `step`-th pixel is larger by one.
pub fn pixels<T: Pixel>(
    alloc: Global,
    count: usize,
    first: usize,
    step: usize,
) -> Result<Vec<T>, AllocError> {
    let mut pixels = Vec::with_capacity(alloc, count)?;
    for place in 0..count {
        let number = first.wrapping_add(place);
        let is_raised = place.checked_rem(step) == Some(0);
        pixels.push(pixel_of(if is_raised {
            number.wrapping_add(1)
        } else {
            number
        }))?;
    }
    Ok(pixels)
}

/// Returns `count` bytes, counted up from `first`.
pub fn bytes(alloc: Global, count: usize, first: usize) -> Result<Vec<u8>, AllocError> {
    let mut bytes = Vec::with_capacity(alloc, count)?;
    for place in 0..count {
        bytes.push((first.wrapping_add(place) % 251) as u8)?;
    }
    Ok(bytes)
}

/// Returns places of the visible rectangle, in the order of a linear congruential generator.
pub fn places(alloc: Global, plan: Plan) -> Result<Vec<(usize, usize)>, AllocError> {
    let mut places = Vec::with_capacity(alloc, PLACES)?;
    let mut state = u32::from(plan.seed);
    for _place in 0..PLACES {
        state = next(state);
        let x = (state >> 16) as usize;
        state = next(state);
        let y = (state >> 16) as usize;
        places.push((
            x.checked_rem(usize::from(plan.width)).unwrap_or(0),
            y.checked_rem(usize::from(plan.height)).unwrap_or(0),
        ))?;
    }
    Ok(places)
}

/// Returns the next state of the generator.
fn next(state: u32) -> u32 {
    state.wrapping_mul(1_664_525).wrapping_add(1_013_904_223)
}

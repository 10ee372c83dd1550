//! Prints results. Nothing in this module allocates, so an allocation that fails is one of the preparation or of the call.

use std::alloc::AllocError;
use std::fmt::Debug;
use v_frame::frame::{Frame, FrameError};
use v_frame::pixel::Pixel;
use v_frame::plane::Plane;

/// Prints a value.
pub fn show(rt: &HostRuntime, value: &impl Debug) {
    let _ = println!(rt; "{value:?}");
}

/// Prints a text.
pub fn show_text(rt: &HostRuntime, text: &str) {
    let _ = println!(rt; "{text}");
}

/// Prints a plane, whose debug text has the geometry and the first entries, and all its entries.
pub fn show_plane<T: Debug>(rt: &HostRuntime, plane: &Plane<T>) {
    show(rt, plane);
    show(rt, &plane.data());
}

/// Prints a plane, or the error.
pub fn show_made<T: Debug + Drop>(rt: &HostRuntime, made: Result<Plane<T>, AllocError>) {
    match made {
        Ok(plane) => show_plane(rt, &plane),
        Err(error) => show(rt, &error),
    }
}

/// Prints a frame and the entries of its planes.
pub fn show_frame<T: Pixel>(rt: &HostRuntime, frame: &Frame<T>) {
    show(rt, &(frame.subsampling, frame.bit_depth.get()));
    for index in 0..3 {
        if let Some(plane) = frame.plane(index) {
            show_plane(rt, plane);
        }
    }
}

/// Prints a frame, or the error.
pub fn show_built<T: Pixel>(rt: &HostRuntime, built: Result<Frame<T>, FrameError>) {
    match built {
        Ok(frame) => show_frame(rt, &frame),
        Err(error) => show(rt, &error),
    }
}

/// Copies `values` to `target`, which has the same length.
pub fn fill<T: Copy>(target: &mut [T], values: &[T]) {
    if target.len() == values.len() {
        target.copy_from_slice(values);
    }
}

//! Calls on 4:2:0 frames of 4 columns and 2 rows.

use crate::text::push_plane;
use std::alloc::Global;
use v_frame::chroma::ChromaSubsampling;
use v_frame::frame::{Frame, FrameBuilder};
use v_frame::pixel::Pixel;
use v_frame::plane::Plane;
use v_frame_measures::{frame_mean_squared_error, frames_have_one_size};
use v_frame_semi_planar::{SemiPlanarFormat, semi_planar_len};
use v_frame_turn::Turn;
use v_frame_turn::frames::{
    flip_horizontal_in_place, flip_vertical_in_place, rotate_180_in_place, turn_frame,
};

/// Returns a frame whose planes have these bytes, or `None` if a memory allocation fails.
pub fn frame<T: Pixel>(alloc: Global, bit_depth: u8, planes: [&[u8]; 3]) -> Option<Frame<T>> {
    let builder = FrameBuilder::new(4, 2, ChromaSubsampling::Yuv420, bit_depth).luma_padding_left(
        2,
    );
    let mut frame = builder.build::<T>(alloc).ok()?;
    frame.y_plane.copy_from_u8_slice(planes[0]).ok()?;
    show(&mut frame.u_plane, planes[1])?;
    show(&mut frame.v_plane, planes[2])?;
    Some(frame)
}

/// Returns a frame of 8-bit pixels whose luma begins with 64 and 255.
pub fn mask(alloc: Global) -> Option<Frame<u8>> {
    frame::<u8>(alloc, 8, [&[64, 255, 0, 0, 0, 0, 0, 0], &[0, 0], &[0, 0]])
}

/// Copies bytes into a chroma plane, if it is present.
fn show<T: Pixel>(plane: &mut Option<Plane<T>>, bytes: &[u8]) -> Option<()> {
    match plane {
        Some(plane) => plane.copy_from_u8_slice(bytes).ok(),
        None => None,
    }
}

/// Appends the number of bytes of a frame in NV12 or P010.
pub fn push_length<T: Pixel>(text: &mut String, frame: &Frame<T>) -> Option<()> {
    let format = match T::BYTES {
        1 => SemiPlanarFormat::Nv12,
        _ => SemiPlanarFormat::P010,
    };
    let bytes = semi_planar_len(frame, format).ok()?;
    writeln!(text, "{bytes} bytes semi-planar").ok()
}

/// Flips a frame vertically, then horizontally, and rotates it by 180 degrees, which gives the original picture again.
pub fn push_turns<T: Pixel>(text: &mut String, frame: &mut Frame<T>) -> Option<()> {
    flip_vertical_in_place(frame);
    push_planes(text, "upside down", frame)?;
    flip_horizontal_in_place(frame);
    push_planes(text, "and mirrored", frame)?;
    rotate_180_in_place(frame);
    push_planes(text, "and by 180 degrees", frame)
}

/// Flips a frame horizontally into another one.
pub fn push_mirrored<T: Pixel>(
    text: &mut String,
    source: &Frame<T>,
    target: &mut Frame<T>,
) -> Option<()> {
    turn_frame(source, target, Turn::FlipHorizontal).ok()?;
    push_planes(text, "mirrored", target)
}

/// Writes a frame to another one: flipped vertically, flipped horizontally, and rotated by 180 degrees.
pub fn push_flips<T: Pixel>(
    text: &mut String,
    source: &Frame<T>,
    target: &mut Frame<T>,
) -> Option<()> {
    turn_frame(source, target, Turn::FlipVertical).ok()?;
    push_planes(text, "upside down", target)?;
    turn_frame(source, target, Turn::FlipHorizontal).ok()?;
    push_planes(text, "mirrored", target)?;
    turn_frame(source, target, Turn::Rotate180).ok()?;
    push_planes(text, "by 180 degrees", target)
}

/// Writes a frame to one of 2 columns and 4 rows: transposed, rotated by 90 degrees, and rotated by 270 degrees.
pub fn push_quarter_turns<T: Pixel>(
    alloc: Global,
    text: &mut String,
    source: &Frame<T>,
) -> Option<()> {
    let builder = FrameBuilder::new(2, 4, ChromaSubsampling::Yuv420, source.bit_depth.get());
    let mut target = builder.build::<T>(alloc).ok()?;
    turn_frame(source, &mut target, Turn::Transpose).ok()?;
    push_planes(text, "transposed", &target)?;
    turn_frame(source, &mut target, Turn::Rotate90).ok()?;
    push_planes(text, "by 90 degrees", &target)?;
    turn_frame(source, &mut target, Turn::Rotate270).ok()?;
    push_planes(text, "by 270 degrees", &target)
}

/// Appends a line for each plane.
fn push_planes<T: Pixel>(text: &mut String, name: &str, frame: &Frame<T>) -> Option<()> {
    push_plane(text, name, &frame.y_plane.as_plane_ref())?;
    if let Some(plane) = &frame.u_plane {
        push_plane(text, "u:", &plane.as_plane_ref())?;
    }
    if let Some(plane) = &frame.v_plane {
        push_plane(text, "v:", &plane.as_plane_ref())?;
    }
    Some(())
}

/// Appends the mean squared errors of two frames.
pub fn push_errors<T: Pixel>(text: &mut String, a: &Frame<T>, b: &Frame<T>) -> Option<()> {
    if !frames_have_one_size(a, b) {
        return None;
    }
    let errors = frame_mean_squared_error(a, b);
    let (all, y) = (errors.all, errors.y);
    let (u, v) = (errors.u?, errors.v?);
    writeln!(text, "mean squared errors: {all:.6} {y} {u} {v}").ok()
}

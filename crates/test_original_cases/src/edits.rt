//! Edits of a frame before the calls.

use crate::fault::LineFault;
use crate::fills::fill_plane;
use crate::input::Input;
use crate::spec::Spec;
use v_frame::chroma::ChromaSubsampling;
use v_frame::frame::Frame;
use v_frame::pixel::Pixel;
use v_frame::plane::Plane;

/// The kinds of lines after a frame.
#[derive(Clone, Copy)]
pub enum Line {
    /// A plane to insert.
    Put,
    /// A plane to remove.
    Drop,
    /// A write into a plane.
    Fill,
    /// The second frame of a pair.
    Frame,
    /// The calls.
    Calls,
}

/// The first words of the lines.
const LINES: [(&str, Line); 5] = [
    ("put", Line::Put),
    ("drop", Line::Drop),
    ("fill", Line::Fill),
    ("frame", Line::Frame),
    ("calls", Line::Calls),
];

/// Makes the edits of the next lines, and reads the first word of the line after them. It must begin a frame or calls, as
/// `behind` specifies.
pub fn edit_frame<T: Pixel>(frame: &mut Frame<T>, input: &mut Input<'_>, behind: Line) {
    for _edit in 0..u64::MAX {
        input.next_line();
        match (input.choice(&LINES), behind) {
            (Some(Line::Put), _) => put_plane(frame, input),
            (Some(Line::Drop), _) => drop_plane(frame, input),
            (Some(Line::Fill), _) => fill(frame, input),
            (Some(Line::Frame), Line::Frame) | (Some(Line::Calls), Line::Calls) => break,
            _ => {
                input.keep(LineFault::NotAnEdit);
                break;
            }
        }
    }
}

/// Sets a plane to a new plane of zeros, whether or not the frame has this plane.
fn put_plane<T: Pixel>(frame: &mut Frame<T>, input: &mut Input<'_>) {
    let index = input.size();
    let luma = Spec {
        bytes: T::BYTES,
        depth: frame.bit_depth.get(),
        size: input.sizes(),
        format: ChromaSubsampling::Monochrome,
        paddings: input.sizes(),
    };
    input.end();
    if let Some(Frame { y_plane, .. }) = luma.frame(input) {
        set_plane(frame, input, index, Some(y_plane));
    }
}

/// Removes a chroma plane.
fn drop_plane<T: Pixel>(frame: &mut Frame<T>, input: &mut Input<'_>) {
    let index = input.size();
    input.end();
    set_plane(frame, input, index, None);
}

/// Sets or removes the plane with this index.
fn set_plane<T: Pixel>(
    frame: &mut Frame<T>,
    input: &mut Input<'_>,
    index: usize,
    plane: Option<Plane<T>>,
) {
    match (index, plane) {
        (0, Some(plane)) => frame.y_plane = plane,
        (1, plane) => frame.u_plane = plane,
        (2, plane) => frame.v_plane = plane,
        _ => input.keep(LineFault::UnknownPlane),
    }
}

/// Fills the buffer of a plane.
fn fill<T: Pixel>(frame: &mut Frame<T>, input: &mut Input<'_>) {
    let index = input.size();
    match frame.plane_mut(index) {
        Some(plane) => fill_plane(plane, input),
        None if index > 2 => input.keep(LineFault::UnknownPlane),
        None => input.keep(LineFault::AbsentPlane),
    }
}

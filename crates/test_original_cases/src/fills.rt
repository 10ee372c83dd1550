//! Writes into the buffer of a plane before the calls.

use crate::fault::LineFault;
use crate::input::Input;
use crate::lcg::Lcg;
use crate::value::Value;
use v_frame::plane::{Plane, PlaneGeometry};

/// The ways to fill a plane.
#[derive(Clone, Copy)]
enum Fill {
    /// With one pixel in this part.
    One(Part),
    /// With a list in this part, row by row.
    List(Part),
    /// With pseudorandom pixels in the whole buffer.
    Congruence,
}

/// A part of a buffer.
#[derive(Clone, Copy)]
enum Part {
    Whole,
    Border,
    Visible,
}

/// The names of the ways to fill a plane.
const FILLS: [(&str, Fill); 5] = [
    ("all", Fill::One(Part::Whole)),
    ("lcg", Fill::Congruence),
    ("list", Fill::List(Part::Whole)),
    ("border", Fill::One(Part::Border)),
    ("table", Fill::List(Part::Visible)),
];

/// Reads from the rest of a line how to fill a plane, and fills it.
pub fn fill_plane<T: Value>(plane: &mut Plane<T>, input: &mut Input<'_>) {
    match input.choice(&FILLS) {
        Some(Fill::One(part)) => fill_one(plane, part, input.pixel()),
        Some(Fill::List(part)) => fill_list(plane, part, input),
        Some(Fill::Congruence) => fill_congruence(plane, input.number()),
        None => input.keep(LineFault::UnknownFill),
    }
}

/// Fills a part with one pixel.
fn fill_one<T: Copy>(plane: &mut Plane<T>, part: Part, value: T) {
    let geometry = plane.geometry();
    for (place, entry) in plane.data_mut().iter_mut().enumerate() {
        if part.has(&geometry, place) {
            *entry = value;
        }
    }
}

/// Fills the whole buffer with pseudorandom pixels.
fn fill_congruence<T: Value>(plane: &mut Plane<T>, seed: u64) {
    let mut lcg = Lcg::new(seed);
    for entry in plane.data_mut() {
        *entry = lcg.pixel();
    }
}

/// Fills a part from a list, which must have the length of the part.
fn fill_list<T: Value>(plane: &mut Plane<T>, part: Part, input: &mut Input<'_>) {
    let geometry = plane.geometry();
    let expected = match part {
        Part::Visible => geometry.width().saturating_mul(geometry.height()),
        _ => plane.data().len(),
    };
    let values = input.pixels(None);
    let found = values.len();
    if found == expected {
        let mut rest = values.iter();
        for (place, entry) in plane.data_mut().iter_mut().enumerate() {
            if part.has(&geometry, place)
                && let Some(value) = rest.next()
            {
                *entry = *value;
            }
        }
    } else {
        input.keep(LineFault::FillLength { expected, found });
    }
}

impl Part {
    /// Returns whether an index of the buffer lies in the part.
    fn has(self, geometry: &PlaneGeometry, place: usize) -> bool {
        match self {
            Part::Whole => true,
            Part::Border => !is_visible(geometry, place),
            Part::Visible => is_visible(geometry, place),
        }
    }
}

/// Returns whether an index of the buffer lies in the visible rectangle.
fn is_visible(geometry: &PlaneGeometry, place: usize) -> bool {
    let (width, height) = (geometry.width(), geometry.height());
    let Some(x) = (place % geometry.stride()).checked_sub(geometry.pad_left()) else {
        return false;
    };
    let Some(y) = (place / geometry.stride()).checked_sub(geometry.pad_top()) else {
        return false;
    };
    x < width && y < height
}

//! Planes that are filled entry by entry.

use crate::show::{show_made, show_plane};
use crate::{drops, frames, no_memory};
use v_frame::plane::{Plane, PlaneGeometry};

/// Runs the case with this name, in this module or a later one. Returns `None` if an allocation of its preparation fails.
pub fn seen(rt: &HostRuntime, name: &str) -> Option<()> {
    match name {
        "new_uninit" => {
            let geometry = PlaneGeometry::new(4, 3, 2, 2, 1, 1, 1, 1)?;
            geometry.checked_alloc_size()?;
            show_made(rt, Plane::<u8>::new_uninit(rt.alloc(), geometry));
        }
        "assume_init" => match assumed(rt, &mut [Some(5_u8), Some(6)])? {
            Ok(plane) => show_plane(rt, &plane),
            Err(plane) => show_plane(rt, &plane),
        },
        "assume_init_of_texts" => assume_init_of_texts(rt)?,
        "assume_init_of_counted_drops" => drops::assume_init_of_counted_drops(rt)?,
        "calls_that_take_no_memory" => no_memory::calls_that_take_no_memory(rt)?,
        _ => frames::seen(rt, name)?,
    }
    Some(())
}

/// The result of the call: the plane of values, or the unchanged plane of options.
type Given<T> = Result<Plane<T>, Plane<Option<T>>>;

/// Returns the result of the call for a plane of one row that is filled with these values. Returns `None` if a value is missing
/// because its allocation failed.
pub fn assumed<T: Drop>(rt: &HostRuntime, values: &mut [Option<T>]) -> Option<Given<T>> {
    let geometry = PlaneGeometry::unpadded(values.len(), 1, 1, 1)?;
    geometry.checked_alloc_size()?;
    let mut plane = Plane::new_uninit(rt.alloc(), geometry).ok()?;
    let places = plane.data_mut();
    if places.len() == values.len() {
        places.swap_with_slice(values);
    }
    if plane.is_init() {
        Some(plane.assume_init(rt.alloc()))
    } else {
        None
    }
}

/// Fills a plane with three texts. Those that are not empty own memory.
fn assume_init_of_texts(rt: &HostRuntime) -> Option<()> {
    let mut texts = [
        String::from_str(rt.alloc(), "Hello World").ok(),
        String::from_str(rt.alloc(), "").ok(),
        String::from_str(rt.alloc(), "This is a test").ok(),
    ];
    match assumed(rt, &mut texts)? {
        Ok(plane) => show_plane(rt, &plane),
        Err(plane) => show_plane(rt, &plane),
    }
    Some(())
}

//! Planes that are filled one entry at a time.

use crate::tests::support::checks::{Test, must};
use v_frame::plane::{Plane, PlaneGeometry};

/// Returns a plane whose entries are all `None`.
pub fn vacant<T: Drop>(rt: &impl Test, geometry: Option<PlaneGeometry>) -> Plane<Option<T>> {
    let geometry = geometry.expect(rt, "no geometry");
    must(rt, geometry.checked_alloc_size().is_some());
    Plane::new_uninit(rt.alloc(), geometry).expect(rt, "memory")
}

/// Returns a plane whose buffer has these entries.
pub fn holding(
    rt: &impl Test,
    geometry: Option<PlaneGeometry>,
    entries: &[Option<u8>],
) -> Plane<Option<u8>> {
    let mut plane = vacant(rt, geometry);
    let data = plane.data_mut();
    must(rt, data.len() == entries.len());
    data.copy_from_slice(entries);
    plane
}

/// Returns the plane of the values. Every entry must hold a value.
pub fn values_of<T: Drop>(rt: &impl Test, plane: Plane<Option<T>>) -> Plane<T> {
    must(rt, plane.is_init());
    let values = plane.assume_init(rt.alloc()).ok();
    values.expect(rt, "memory")
}

//! Elements that count how often they are dropped.

use crate::filled::assumed;
use crate::show::show;
use std::cell::Cell;
use std::rc::Rc;
use v_frame::plane::Plane;

/// An element that counts its drop.
struct Counted {
    drops: Rc<Cell<u32>>,
}

impl Drop for Counted {
    fn drop(self) {
        let Counted { drops } = self;
        drops.set(drops.get().wrapping_add(1));
    }
}

/// Takes the values out of a plane that is filled with three elements. Each element is dropped exactly once, together with the
/// plane that the call returns.
pub fn assume_init_of_counted_drops(rt: &HostRuntime) -> Option<()> {
    let drops = Rc::new(rt.alloc(), Cell::new(0)).ok()?;
    let mut elements = [element(&drops), element(&drops), element(&drops)];
    let given = assumed(rt, &mut elements);
    drop(elements);
    match given? {
        Ok(plane) => show_drops(rt, "values", &drops, plane),
        Err(plane) => show_drops(rt, "places", &drops, plane),
    }
    Some(())
}

/// Returns an element that counts its drop in `drops`.
fn element(drops: &Rc<Cell<u32>>) -> Option<Counted> {
    match drops.clone() {
        Ok(drops) => Some(Counted { drops }),
        Err(_) => None,
    }
}

/// Prints the number of elements dropped so far, the number of elements in the plane, and the number dropped after the plane is
/// dropped.
fn show_drops<T: Drop>(rt: &HostRuntime, what: &str, drops: &Cell<u32>, plane: Plane<T>) {
    let (before, count) = (drops.get(), plane.data().len());
    drop(plane);
    show(rt, &(what, before, count, drops.get()));
}

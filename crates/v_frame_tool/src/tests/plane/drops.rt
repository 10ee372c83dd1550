//! Tests of elements that count how often they are dropped: each is dropped once, with its plane.

use crate::tests::support::checks::{Test, same};
use crate::tests::support::options::{vacant, values_of};
use std::cell::Cell;
use std::rc::Rc;
use v_frame::plane::{Plane, PlaneGeometry};

/// An element that counts how often it is dropped.
struct Counted {
    drops: Rc<Cell<u32>>,
}

impl Drop for Counted {
    fn drop(self) {
        let Counted { drops } = self;
        drops.set(drops.get().wrapping_add(1));
    }
}

/// Returns a plane of three entries in one row, of which the first `count` hold an element.
fn held(rt: &impl Test, drops: &Rc<Cell<u32>>, count: usize) -> Plane<Option<Counted>> {
    let mut plane = vacant(rt, PlaneGeometry::unpadded(3, 1, 1, 1));
    for entry in plane.data_mut().iter_mut().take(count) {
        let drops = drops.clone().expect(rt, "memory");
        *entry = Some(Counted { drops });
    }
    plane
}

#[test]
fn planes_of_options_and_of_values_drop_each_element_once(rt: HostRuntime) {
    let rt = &rt;
    let drops = Rc::new(rt.alloc(), Cell::new(0)).ok().expect(rt, "memory");
    for count in [0, 3] {
        drops.set(0);
        let options = held(rt, &drops, count);
        same(rt, drops.get(), 0);
        drop(options);
        same(rt, drops.get() as usize, count);
    }
    drops.set(0);
    let values = values_of(rt, held(rt, &drops, 3));
    same(rt, drops.get(), 0);
    drop(values);
    same(rt, drops.get(), 3);
}

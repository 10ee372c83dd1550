//! Tests of planes that are cloned, and of planes that are filled one entry at a time.

use crate::tests::support::buffers::NINE;
use crate::tests::support::checks::{must, must_have, same};
use crate::tests::support::frames::{plane_of, write_pixel};
use crate::tests::support::options::{holding, vacant, values_of};
use v_frame::plane::PlaneGeometry;

#[test]
fn a_clone_is_a_plane_of_its_own(rt: HostRuntime) {
    let rt = &rt;
    let mut nine = plane_of::<u8>(rt, (3, 3, [0; 4]), &NINE);
    let copy = nine.clone(rt.alloc()).expect(rt, "memory");
    write_pixel(rt, &mut nine, 0, 0, 100);
    same(
        rt,
        [nine.pixel(0, 0), copy.pixel(0, 0)],
        [Some(100), Some(0)],
    );
}

/// Two pixels in one row.
fn pair() -> Option<PlaneGeometry> {
    PlaneGeometry::unpadded(2, 1, 1, 1)
}

#[test]
fn a_plane_is_filled_when_each_place_holds_a_value_and_equals_its_clone(rt: HostRuntime) {
    let rt = &rt;
    let fresh = vacant::<u8>(rt, pair());
    let half = holding(rt, pair(), &[Some(5), None]);
    same(rt, [fresh.is_init(), half.is_init()], [false; 2]);
    let mut values = values_of(rt, holding(rt, pair(), &[Some(5), Some(6)]));
    must_have(rt, &values, &[5, 6]);
    let copy = values.clone(rt.alloc()).expect(rt, "memory");
    must(rt, values == copy);
    write_pixel(rt, &mut values, 0, 0, 9);
    must(rt, values != copy);
    must_have(rt, &copy, &[5, 6]);
}

/// The numbers from 0 to 15.
static COUNT: [u8; 16] = [0, 1, 2, 3, 4, 5, 6, 7, 8, 9, 10, 11, 12, 13, 14, 15];

#[test]
fn sixteen_entries_are_read_back(rt: HostRuntime) {
    let rt = &rt;
    let layout = (2, 2, [1, 1, 1, 1]);
    must_have(rt, &plane_of::<u8>(rt, layout, &COUNT), &COUNT);
    let mut plane = vacant::<u8>(rt, PlaneGeometry::new(2, 2, 1, 1, 1, 1, 1, 1));
    for (entry, number) in plane.data_mut().iter_mut().zip(&COUNT) {
        *entry = Some(*number);
    }
    must_have(rt, &values_of(rt, plane), &COUNT);
}

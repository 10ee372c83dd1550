//! Tests of copies of packed pixels into a plane.

use crate::tests::support::buffers::{COUNTED, must_show_rows};
use crate::tests::support::checks::{must_have, same};
use crate::tests::support::frames::{BORDERED, plane_of};
use crate::tests::support::texts::must_show;

/// Sources whose length is not six pixels, with the expected errors.
static REFUSED: [(&[u8], &str); 3] = [
    (
        &[1, 2, 3, 4, 5],
        "Err(DataLength { expected: 6, found: 5 })",
    ),
    (&[1; 3], "Err(DataLength { expected: 6, found: 3 })"),
    (&[1; 9], "Err(DataLength { expected: 6, found: 9 })"),
];

#[test]
fn a_copy_of_another_length_changes_nothing(rt: HostRuntime) {
    let rt = &rt;
    let before = [
        100, 101, 102, 103, 104, 105, 106, 0, 0, 0, 110, 111, 112, 0, 0, 0, 116, 117,
    ];
    let mut plane = plane_of::<u8>(rt, BORDERED, &before);
    for (pixels, answer) in &REFUSED {
        must_show(rt, &plane.copy_from_slice(*pixels), *answer);
        must_have(rt, &plane, &before);
    }
    same(rt, plane.copy_from_slice(&[1, 2, 3, 4, 5, 6]), Ok(()));
    must_show_rows(rt, &plane, BORDERED, &COUNTED);
}

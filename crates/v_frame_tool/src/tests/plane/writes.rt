//! Tests of rows and pixels that are written in place.

use crate::tests::support::buffers::must_show_rows;
use crate::tests::support::checks::{must, must_have, same};
use crate::tests::support::frames::{blank_plane, write_pixel};

#[test]
fn rows_and_pixels_are_written_in_place(rt: HostRuntime) {
    let rt = &rt;
    let layout = (4, 3, [0; 4]);
    let mut plane = blank_plane::<u8>(rt, layout);
    let row = plane.row_mut(1).expect(rt, "a row");
    must(rt, row.len() == 4);
    row.copy_from_slice(&[0, 1, 2, 3]);
    let wanted = [0, 0, 0, 0, 0, 1, 2, 3, 0, 0, 0, 0];
    must_show_rows(rt, &plane, layout, &wanted);
    must(rt, plane.row(100).is_none());
    let mut plane = blank_plane::<u8>(rt, (4, 4, [0; 4]));
    for (x, y, value) in [(0, 0, 10), (2, 1, 20), (3, 3, 30)] {
        write_pixel(rt, &mut plane, x, y, value);
        same(rt, plane.pixel(x, y), Some(value));
    }
    let wanted = [10, 0, 0, 0, 0, 0, 20, 0, 0, 0, 0, 0, 0, 0, 0, 30];
    must_have(rt, &plane, &wanted);
    same(
        rt,
        [plane.pixel(1, 1), plane.pixel(100, 100)],
        [Some(0), None],
    );
}

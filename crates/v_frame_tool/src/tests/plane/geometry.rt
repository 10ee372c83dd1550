//! Tests of the sizes and paddings of geometries: the values that follow from them, and values that are too large.

use crate::tests::support::checks::{must, same, same_at};
use crate::tests::support::reads::numbers_of;
use v_frame::plane::PlaneGeometry;

#[test]
fn sizes_follow_from_the_paddings_and_getters_tell_what_was_given(rt: HostRuntime) {
    let rt = &rt;
    let geometry = PlaneGeometry::new(4, 3, 2, 2, 1, 1, 1, 1).expect(rt, "a geometry");
    must(rt, geometry.checked_alloc_size() == Some(40));
    let sizes = [
        geometry.stride(),
        geometry.data_origin(),
        geometry.alloc_height(),
        geometry.alloc_size(),
    ];
    same(rt, sizes, [8, 10, 5, 40]);
    let padded = PlaneGeometry::new(1920, 1080, 40, 30, 20, 10, 1, 1).expect(rt, "padded");
    let wanted = [1920, 1080, 1990, 40, 30, 20, 10, 1, 1];
    same(rt, numbers_of(&padded), wanted);
    let unpadded = PlaneGeometry::unpadded(1920, 1080, 1, 1).expect(rt, "unpadded");
    let wanted = [1920, 1080, 1920, 0, 0, 0, 0, 1, 1];
    same(rt, numbers_of(&unpadded), wanted);
}

/// The stride of a geometry, and the size of its buffer if a buffer can be that large.
type Told = (usize, Option<usize>);

/// Returns the stride and the buffer size of a geometry, or `None` if there is no geometry.
fn told(geometry: Option<PlaneGeometry>) -> Option<Told> {
    match geometry {
        Some(geometry) => Some((geometry.stride(), geometry.checked_alloc_size())),
        None => None,
    }
}

/// A width, a height, paddings left, right, top and bottom, and ratios, with the expected stride and buffer size.
type Padded = ([usize; 6], [u8; 2], Option<Told>);

/// Geometries with a border. There is none if a size or a ratio is zero, or if the stride does not fit into a `usize`.
static PADDED: [Padded; 13] = [
    ([0, 1080, 40, 30, 20, 10], [1, 1], None),
    ([1920, 0, 40, 30, 20, 10], [1, 1], None),
    ([1920, 1080, 40, 30, 20, 10], [0, 1], None),
    ([1920, 1080, 40, 30, 20, 10], [1, 0], None),
    ([usize::MAX - 50, 1080, 30, 30, 0, 0], [1, 1], None),
    ([1, 1, usize::MAX, 0, 0, 0], [1, 1], None),
    ([1, 1, 0, usize::MAX, 0, 0], [1, 1], None),
    ([1, 1, usize::MAX, usize::MAX, 0, 0], [1, 1], None),
    ([1, 1, usize::MAX - 2, 2, 0, 0], [1, 1], None),
    (
        [usize::MAX - 50, 1080, 25, 25, 0, 0],
        [1, 1],
        Some((usize::MAX, None)),
    ),
    (
        [1, 1, usize::MAX - 1, 0, 0, 0],
        [1, 1],
        Some((usize::MAX, None)),
    ),
    (
        [1, 1, usize::MAX - 2, 1, 0, 0],
        [1, 1],
        Some((usize::MAX, None)),
    ),
    (
        [1, usize::MAX, 0, 0, usize::MAX, usize::MAX],
        [1, 1],
        Some((1, None)),
    ),
];

/// Geometries without a border. The size of the third is two to the power of 64, which does not fit into a `usize`.
static UNPADDED: [([usize; 2], [u8; 2], Option<Told>); 9] = [
    (
        [4611686018427387903, 1],
        [1, 1],
        Some((4611686018427387903, Some(4611686018427387903))),
    ),
    (
        [4611686018427387904, 1],
        [1, 1],
        Some((4611686018427387904, None)),
    ),
    ([4294967296, 4294967296], [1, 1], Some((4294967296, None))),
    ([2147483648, 2147483648], [1, 1], Some((2147483648, None))),
    (
        [2147483648, 2147483647],
        [1, 1],
        Some((2147483648, Some(4611686016279904256))),
    ),
    ([0, 1080], [1, 1], None),
    ([1920, 0], [1, 1], None),
    ([1920, 1080], [0, 1], None),
    ([1920, 1080], [1, 0], None),
];

#[test]
fn strides_and_buffers_are_as_large_as_numbers_go(rt: HostRuntime) {
    for (number, (numbers, [x, y], wanted)) in PADDED.iter().enumerate() {
        let [width, height, left, right, top, bottom] = *numbers;
        let geometry = PlaneGeometry::new(width, height, left, right, top, bottom, *x, *y);
        same_at(&rt, told(geometry), *wanted, number);
    }
    for (number, ([width, height], [x, y], wanted)) in UNPADDED.iter().enumerate() {
        let geometry = PlaneGeometry::unpadded(*width, *height, *x, *y);
        same_at(&rt, told(geometry), *wanted, number);
    }
}

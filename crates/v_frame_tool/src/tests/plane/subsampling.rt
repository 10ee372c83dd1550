//! Tests of the geometries of chroma planes: paddings are divided as sizes are, and odd values cannot be halved.

use crate::tests::support::checks::{Test, same, same_at};
use v_frame::chroma::ChromaSubsampling::{self, Monochrome, Yuv411, Yuv420, Yuv422, Yuv444};
use v_frame::plane::{PlaneGeometry, SubsamplingError};

/// The width and the height, the paddings left, right, top and bottom, and the subsampling ratios.
type Shape = ([usize; 2], [usize; 4], [u8; 2]);

/// Returns the geometry of this shape.
fn geometry(
    rt: &impl Test,
    ([width, height], [left, right, top, bottom], [ratio_x, ratio_y]): Shape,
) -> PlaneGeometry {
    PlaneGeometry::new(width, height, left, right, top, bottom, ratio_x, ratio_y).expect(
        rt,
        "a geometry",
    )
}

/// A plane with padding whose sizes and paddings are all even.
const EVEN: Shape = ([1920, 1080], [40, 30, 20, 10], [1, 1]);

/// A plane with an odd padding below.
const ODD_BELOW: Shape = ([1920, 1080], [10, 10, 40, 15], [1, 1]);

/// The chroma planes of `EVEN` in 4:2:0.
const HALVED: Shape = ([960, 540], [20, 15, 10, 5], [2, 2]);

/// The shape of `HALVED`, but with a right padding that is divisible by 4.
const QUARTERED: Shape = ([960, 540], [20, 16, 10, 5], [2, 2]);

/// A plane whose ratios are already set.
const SMALL: Shape = ([8, 8], [0; 4], [2, 2]);

/// Planes, a format, and the chroma planes for it.
static DIVIDED: [(Shape, ChromaSubsampling, Shape); 7] = [
    (EVEN, Yuv444, EVEN),
    (EVEN, Yuv422, ([960, 1080], [20, 15, 20, 10], [2, 1])),
    (EVEN, Yuv420, HALVED),
    (ODD_BELOW, Yuv422, ([960, 1080], [5, 5, 40, 15], [2, 1])),
    (QUARTERED, Yuv411, ([240, 540], [5, 4, 10, 5], [4, 1])),
    (SMALL, Yuv422, ([4, 8], [0; 4], [2, 1])),
    (SMALL, Yuv444, SMALL),
];

#[test]
fn sizes_and_paddings_are_divided(rt: HostRuntime) {
    let rt = &rt;
    for (number, (luma, format, chroma)) in DIVIDED.iter().enumerate() {
        let found = geometry(rt, *luma).for_subsampling(*format);
        same_at(rt, found, Ok(Some(geometry(rt, *chroma))), number);
    }
    same(rt, geometry(rt, HALVED).stride(), 995);
    let wide = geometry(rt, ([960, 1080], [20, 15, 20, 10], [2, 1]));
    same(rt, wide.stride(), 995);
}

/// Planes, and whether each has chroma planes in 4:2:0, in 4:2:2 and in 4:1:1.
static HALVES: [(Shape, [bool; 3]); 7] = [
    (EVEN, [true, true, false]),
    (([1921, 1080], [0; 4], [1, 1]), [false; 3]),
    (([17, 41], [0; 4], [1, 1]), [false; 3]),
    (([1920, 1080], [10, 7, 40, 20], [1, 1]), [false; 3]),
    (([1920, 1081], [0; 4], [1, 1]), [false, true, true]),
    (ODD_BELOW, [false, true, false]),
    (HALVED, [false, false, false]),
];

#[test]
fn odd_sizes_and_paddings_have_no_half(rt: HostRuntime) {
    let rt = &rt;
    for (number, (shape, halves)) in HALVES.iter().enumerate() {
        let luma = geometry(rt, *shape);
        let found = [
            luma.for_subsampling(Yuv420) != Err(SubsamplingError),
            luma.for_subsampling(Yuv422) != Err(SubsamplingError),
            luma.for_subsampling(Yuv411) != Err(SubsamplingError),
        ];
        same_at(rt, found, *halves, number);
        same_at(rt, luma.for_subsampling(Yuv444), Ok(Some(luma)), number);
        same_at(rt, luma.for_subsampling(Monochrome), Ok(None), number);
    }
}

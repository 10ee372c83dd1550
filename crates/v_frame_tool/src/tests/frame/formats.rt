//! Tests of the subsampling ratios of the five formats, and of the chroma sizes that follow from them.

use crate::tests::support::checks::same_at;
use v_frame::chroma::ChromaSubsampling::{self, Monochrome, Yuv411, Yuv420, Yuv422, Yuv444};

/// The formats with their subsampling ratios.
static RATIOS: [(ChromaSubsampling, Option<(u8, u8)>); 5] = [
    (Yuv420, Some((2, 2))),
    (Yuv422, Some((2, 1))),
    (Yuv411, Some((4, 1))),
    (Yuv444, Some((1, 1))),
    (Monochrome, None),
];

/// Formats, luma sizes and chroma sizes.
static SIZES: [(ChromaSubsampling, (usize, usize), Option<(usize, usize)>); 19] = [
    (Yuv420, (1920, 1080), Some((960, 540))),
    (Yuv422, (1920, 1080), Some((960, 1080))),
    (Yuv411, (1920, 1080), Some((480, 1080))),
    (Yuv444, (1920, 1080), Some((1920, 1080))),
    (Monochrome, (1920, 1080), None),
    (Yuv420, (3840, 2160), Some((1920, 1080))),
    (Yuv422, (3840, 2160), Some((1920, 2160))),
    (Yuv444, (3840, 2160), Some((3840, 2160))),
    (Yuv420, (1921, 1080), None),
    (Yuv420, (1920, 1081), None),
    (Yuv420, (1921, 1081), None),
    (Yuv420, (2, 2), Some((1, 1))),
    (Yuv444, (1, 1), Some((1, 1))),
    (Yuv420, (0, 0), Some((0, 0))),
    (Yuv422, (2, 1), Some((1, 1))),
    (Yuv422, (1921, 1080), None),
    (Yuv411, (8, 3), Some((2, 3))),
    (Yuv411, (6, 2), None),
    (Yuv411, (usize::MAX, 2), None),
];

#[test]
fn formats_have_their_ratios_and_sizes(rt: HostRuntime) {
    for (number, (format, ratio)) in RATIOS.iter().enumerate() {
        let found = match format.subsample_ratio() {
            Some((x, y)) => Some((x.get(), y.get())),
            None => None,
        };
        let told = (found, format.has_chroma());
        same_at(&rt, told, (*ratio, ratio.is_some()), number);
    }
    for (number, (format, (width, height), chroma)) in SIZES.iter().enumerate() {
        let found = format.chroma_dimensions(*width, *height);
        same_at(&rt, found, *chroma, number);
    }
}

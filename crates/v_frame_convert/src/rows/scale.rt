//! Pictures converted to the size of another chroma format, and to another bit depth in the same step.
ghost use Rattle.std.specs.Prelude.{◌≡◌, ◌≢◌, ◌+◌, ◌*◌, ◌^◌, ◌<◌, ◌≤◌, ℕ, length};
ghost use Rattle.v_frame.specs.Prelude.{height_of, strided_rows, width_of, KeepsRest, RowsFit};
ghost use Rattle.v_frame_convert.specs.Depth.{pixel_of_depth, DepthFits};
ghost use Rattle.v_frame_convert.specs.Scale.{scaled, SizesFit};
ghost use Rattle.v_frame_convert.specs.ScaledRows.{line_pair};
ghost use Rattle.v_frame_convert.specs.declared.scale.Scale.TheVariants.{Quarter};

use super::scale_row::scale_row;
use crate::depth_change::DepthChange;
use crate::scale::Scale;
use v_frame::pixel::Pixel;
use v_frame::plane::RowsRef;

/// Converts `source` to another size and another bit depth and writes it into the rows in `buffer`. Chroma planes change from
/// one format to another in this way: for example, from 4:4:4 to 4:2:0 with `Half` in both directions.
///
/// `across` relates the width of the rows to the width of `source`, and `down` relates the heights. `down` must not be
/// [`Quarter`](Scale::Quarter). If the target is smaller, each pixel is the mean of the block that it covers (box filter),
/// rounded to the nearest integer, halves up. At the right and lower edge the last column or row is repeated to fill a block.
/// If the target is larger, pixels are repeated (nearest neighbor). Chroma samples are therefore sited at the center of the
/// luma samples that they cover, as in JPEG and MPEG-1. The value is then converted from depth `from` to depth `to`, as in
/// [`convert_depth`](super::convert_depth).
///
/// The sizes must correspond, as [`sizes_fit`](crate::sizes_fit) tests, and each depth must fit its type of pixels, as
/// [`depth_fits`](crate::depth_fits) tests.
pub fn resample<S: Pixel, T: Pixel>(
    source: &RowsRef<'_, S>,
    buffer: &mut [T],
    width: usize,
    height: usize,
    stride: usize,
    across: Scale,
    down: Scale,
    from: u8,
    to: u8,
)
    requires fit { RowsFit width height stride (length buffer.old) }
    requires wide { SizesFit across (width_of source.now) width }
    requires high { SizesFit down (height_of source.now) height }
    requires pairs { down ≢ Quarter }
    requires from { DepthFits S.BYTES from }
    requires to { DepthFits T.BYTES to }
    ensures table { strided_rows width height stride buffer.new
        ≡ scaled S.form (pixel_of_depth T.form from to) across down width height source.now }
    ensures rest { KeepsRest width height stride buffer.old buffer.new }
{
    let change = DepthChange::new(from, to);
    scale_rows(source, buffer, width, height, stride, across, down, &change);
}

/// Converts `source` to another size and another bit depth, row by row. Each pixel is the mean of the block that it covers, or
/// the pixel in whose block it lies.
#[tactic(auto, using(v_frame_raster::proofs::tables::StridedWrites::row_ends))]
fn scale_rows<S: Pixel, T: Pixel>(
    source: &RowsRef<'_, S>,
    buffer: &mut [T],
    width: usize,
    height: usize,
    stride: usize,
    across: Scale,
    down: Scale,
    change: &DepthChange,
)
    requires fit { RowsFit width height stride (length buffer.old) }
    requires wide { SizesFit across (width_of source.now) width }
    requires high { SizesFit down (height_of source.now) height }
    requires pairs { down ≢ Quarter }
    requires depth { 2 ^ change.now.to ≤ 256 ^ T.BYTES }
    ensures table { strided_rows width height stride buffer.new
        ≡ scaled S.form (pixel_of_depth T.form change.now.from change.now.to) across down width
        height source.now }
    ensures rest { KeepsRest width height stride buffer.old buffer.new }
{
    let lines = source.height();
    for y in 0..height {
        let (upper, lower) = lines_at(down, y, lines, height);
        let start = stride * y;
        scale_row(
            source.visible_row(upper),
            source.visible_row(lower),
            &mut buffer[start..start + width],
            across,
            change,
        );
    }
}

/// Returns the two rows of the source, which has `lines` rows, whose mean is row `y` of the target. They are the same row
/// unless the number of rows is halved.
fn lines_at(down: Scale, y: usize, lines: usize, height: usize) -> (usize, usize)
    requires sizes { SizesFit down lines height }
    requires high { y < height }
    requires pairs { down ≢ Quarter }
    ensures value { result ≡ line_pair down y lines }
    ensures within { (result.0 < lines) × (result.1 < lines) }
{
    match down {
        Scale::Quarter => unreachable!(),
        Scale::Half => (2 * y, 2 * y + 1.min(lines - 1 - 2 * y)),
        Scale::Same => (y, y),
        Scale::Double => (y / 2, y / 2),
        Scale::Quadruple => (y / 4, y / 4),
    }
}

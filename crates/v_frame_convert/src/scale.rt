//! Planes converted to the size of another chroma format, and the ratios between the sizes of two planes.
ghost use Rattle.std.specs.Prelude.{◌≡◌, ◌≢◌, ◌↔◌, IsTrue};
ghost use Rattle.v_frame.specs.Prelude.{table_of, KeepsBorder};
ghost use Rattle.v_frame_convert.specs.Depth.{pixel_of_depth, DepthFits};
ghost use Rattle.v_frame_convert.specs.Scale.{scaled, SizesFit};
ghost use Rattle.v_frame_convert.specs.declared.scale.Scale.TheVariants.{Quarter};

use crate::rows;
use v_frame::pixel::Pixel;
use v_frame::plane::{Plane, PlaneRef, VisibleMut};

/// The ratio of the width (or height) of a target plane to the width (or height) of a source plane.
#[derive(Debug, Clone, Copy, PartialEq, Eq)]
pub enum Scale {
    /// A quarter, rounded up. Each target pixel is the mean of four source pixels.
    Quarter,
    /// A half, rounded up. Each target pixel is the mean of two source pixels.
    Half,
    /// The same size.
    Same,
    /// Twice as many, or one less. Each source pixel is repeated twice.
    Double,
    /// Four times as many, or up to three less. Each source pixel is repeated four times.
    Quadruple,
}

/// Returns whether a plane with `source` columns (or rows) can be converted to a plane with `target` columns (or rows) at this
/// scale.
pub fn sizes_fit(scale: Scale, source: usize, target: usize) -> bool
    ensures { IsTrue result ↔ SizesFit scale source target }
{
    match scale {
        Scale::Quarter => target == source.div_ceil(4),
        Scale::Half => target == source.div_ceil(2),
        Scale::Same => target == source,
        Scale::Double => source == target.div_ceil(2),
        Scale::Quadruple => source == target.div_ceil(4),
    }
}

/// Converts `source` to another size and another bit depth and writes it into `target`. The padding of `target` stays
/// unchanged. Chroma planes change from one format to another in this way: for example, from 4:4:4 to 4:2:0 with `Half` in both
/// directions.
///
/// `across` relates the width of `target` to the width of `source`, and `down` relates the heights. `down` must not be
/// [`Quarter`](Scale::Quarter). If the target is smaller, each pixel is the mean of the block that it covers (box filter),
/// rounded to the nearest integer, halves up. At the right and lower edge the last column or row is repeated to fill a block.
/// If the target is larger, pixels are repeated (nearest neighbor). Chroma samples are therefore sited at the center of the
/// luma samples that they cover, as in JPEG and MPEG-1. The value is then converted from depth `from` to depth `to`, as in
/// [`convert_depth`](crate::convert_depth).
///
/// The sizes must correspond, as [`sizes_fit`](sizes_fit) tests, and each depth must fit its type of pixels, as
/// [`depth_fits`](crate::depth_fits) tests.
pub fn resample<S: Pixel, T: Pixel>(
    source: &PlaneRef<'_, S>,
    target: &mut Plane<T>,
    across: Scale,
    down: Scale,
    from: u8,
    to: u8,
)
    requires wide { SizesFit across source.now.geometry.width target.old.geometry.width }
    requires high { SizesFit down source.now.geometry.height target.old.geometry.height }
    requires pairs { down ≢ Quarter }
    requires from { DepthFits S.BYTES from }
    requires to { DepthFits T.BYTES to }
    ensures table { table_of target.new ≡ scaled S.form (pixel_of_depth T.form from to) across down
        target.old.geometry.width target.old.geometry.height (table_of source.now) }
    ensures border { KeepsBorder target.old target.new }
{
    let source = source.as_rows_ref();
    let VisibleMut {
        entries,
        width,
        height,
        stride,
    } = target.visible_mut();
    rows::resample(
        &source, entries, width, height, stride, across, down, from, to,
    );
}

//! Planes enlarged or halved by integer ratios, as chroma planes are when the chroma format changes.
ghost use Rattle.std.specs.Prelude.{◌≡◌, ◌+◌, ◌/◌, ◌<◌, ◌≤◌, ℕ};
ghost use Rattle.v_frame.specs.Prelude.{pixel_at, table_of, KeepsBorder};
ghost use Rattle.v_frame_convert.specs.Chroma.{upscaled, IsSubsampledSize};
ghost use Rattle.v_frame_convert.specs.Scale.{scaled};
ghost use Rattle.v_frame_convert.specs.declared.scale.Scale.TheVariants.{Half, Same};

use crate::rows;
use v_frame::pixel::Pixel;
use v_frame::plane::{Plane, PlaneRef, VisibleMut};

/// Enlarges `source` into `target` by repeating pixels (nearest neighbor): each source pixel is repeated `ratio_x` times in its
/// row, and each row `ratio_y` times. The target pixel at column `x` of row `y` is the source pixel at column `x / ratio_x` of
/// row `y / ratio_y`. The padding of `target` stays unchanged.
///
/// The size of `source` is the size of `target` divided by the ratios, rounded up, as
/// [`subsampled_size`](crate::subsampled_size) computes it. If a ratio does not divide the size of `target`, the last column or
/// row is repeated fewer times. Ratios of 1, 2 and 4 are the fastest.
pub fn upscale<T: Copy>(
    source: &PlaneRef<'_, T>,
    target: &mut Plane<T>,
    ratio_x: usize,
    ratio_y: usize,
)
    requires wide { IsSubsampledSize target.old.geometry.width ratio_x source.now.geometry.width }
    requires high { IsSubsampledSize target.old.geometry.height ratio_y source.now.geometry.height }
    ensures table { table_of target.new
        ≡ upscaled ratio_x ratio_y target.old.geometry.width target.old.geometry.height
        (table_of source.now) }
    ensures pixels { (x y : ℕ) → x < target.old.geometry.width → y < target.old.geometry.height
        → pixel_at (table_of target.new) x y
        ≡ pixel_at (table_of source.now) (x / ratio_x) (y / ratio_y) }
    ensures border { KeepsBorder target.old target.new }
{
    let source = source.as_rows_ref();
    let VisibleMut {
        entries,
        width,
        height,
        stride,
    } = target.visible_mut();
    rows::upscale(&source, entries, width, height, stride, ratio_x, ratio_y);
}

/// Halves the width and the height of `source` into `target`, with odd sizes rounded up. Each pixel is the mean of a block of 2
/// by 2 source pixels, rounded to the nearest integer, halves up. If the width is odd, the last column counts twice, and if the
/// height is odd, the last row counts twice. The padding of `target` stays unchanged.
///
/// [`subsampled_size`](crate::subsampled_size) with a ratio of 2 computes the size of `target`. If all samples fit the bit
/// depth, [`resample`](crate::resample) with [`Half`](crate::Scale::Half) in both directions and no change of depth writes the
/// same pixels, but is slower.
pub fn downscale_to_edge<T: Pixel>(source: &PlaneRef<'_, T>, target: &mut Plane<T>)
    requires wide { target.old.geometry.width ≡ (source.now.geometry.width + 1) / 2 }
    requires high { target.old.geometry.height ≡ (source.now.geometry.height + 1) / 2 }
    ensures table { table_of target.new ≡ scaled T.form T.form.pixel_of Half Half
        target.old.geometry.width target.old.geometry.height (table_of source.now) }
    ensures border { KeepsBorder target.old target.new }
{
    let source = source.as_rows_ref();
    let VisibleMut {
        entries,
        width,
        height,
        stride,
    } = target.visible_mut();
    rows::downscale_to_edge(&source, entries, width, height, stride);
}

/// Halves the width of `source` into `target`, with an odd width rounded up. Each pixel is the mean of two adjacent source
/// pixels, rounded to the nearest integer, halves up. If the width is odd, the last column is copied. The height stays the
/// same. The padding of `target` stays unchanged.
///
/// If all samples fit the bit depth, [`resample`](crate::resample) with [`Half`](crate::Scale::Half) across,
/// [`Same`](crate::Scale::Same) down and no change of depth writes the same pixels, but is slower.
pub fn halve_columns<T: Pixel>(source: &PlaneRef<'_, T>, target: &mut Plane<T>)
    requires wide { target.old.geometry.width ≡ (source.now.geometry.width + 1) / 2 }
    requires high { target.old.geometry.height ≡ source.now.geometry.height }
    ensures table { table_of target.new ≡ scaled T.form T.form.pixel_of Half Same
        target.old.geometry.width target.old.geometry.height (table_of source.now) }
    ensures border { KeepsBorder target.old target.new }
{
    let source = source.as_rows_ref();
    let VisibleMut {
        entries,
        width,
        height,
        stride,
    } = target.visible_mut();
    rows::halve_columns(&source, entries, width, height, stride);
}

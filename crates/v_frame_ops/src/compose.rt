//! Operations that combine two planes: blend one over a rectangle of another, evenly or by a mask, copy one into another with
//! clipping, or compute an amplified difference. The padding stays unchanged.
ghost use Rattle.std.specs.Prelude.{◌≡◌, ◌+◌, ◌*◌, ◌^◌, ◌<◌, ◌≤◌, ◌⊎◌, ℕ, min, Some};
ghost use Rattle.std.specs.Int.{abs_diff};
ghost use Rattle.v_frame.specs.Prelude.{KeepsBorder, pixel_at, table_of};
ghost use Rattle.v_frame_ops.specs.Change.{combined};
ghost use Rattle.v_frame_ops.specs.Compose.{blended, difference_of, LiesOn};

use crate::change::combine_pixels;
use crate::rows;
use crate::rows::{largest_value, pixel_difference};
use v_frame::pixel::Pixel;
use v_frame::plane::{Plane, PlaneRef, VisibleMut};

/// Blends all visible pixels of `source` over a rectangle of `target` with one weight. The top left pixel of `source` is
/// blended at column `x` of row `y`.
///
/// `weight` is at most 256. The source contributes `weight / 256` of each pixel and the target the rest. A target pixel of
/// value `p` becomes `(p * (256 - weight) + q * weight + 128) / 256`, where `q` is the value of the source pixel and the
/// division rounds down. A weight of 0 leaves the target unchanged, and a weight of 256 copies the source.
///
/// The whole of `source` must fit inside `target` at this position. The other pixels of `target` and its padding stay
/// unchanged.
pub fn blend_region<T: Pixel>(
    source: &PlaneRef<'_, T>,
    target: &mut Plane<T>,
    x: usize,
    y: usize,
    weight: u16,
)
    requires weight { weight ≤ 256 }
    requires wide { x + source.now.geometry.width ≤ target.old.geometry.width }
    requires high { y + source.now.geometry.height ≤ target.old.geometry.height }
    ensures inside { (i j : ℕ) (p q : T) → pixel_at (table_of target.old) (x + i) (y + j) ≡ Some p
        → pixel_at (table_of source.now) i j ≡ Some q
        → pixel_at (table_of target.new) (x + i) (y + j) ≡ Some (blended T.form 256 weight p q) }
    ensures beside { (i j : ℕ) → ((i < x) ⊎ (x + source.now.geometry.width ≤ i))
        ⊎ ((j < y) ⊎ (y + source.now.geometry.height ≤ j))
        → pixel_at (table_of target.new) i j ≡ pixel_at (table_of target.old) i j }
    ensures border { KeepsBorder target.old target.new }
{
    let VisibleMut {
        entries,
        width,
        height,
        stride,
    } = target.visible_region_mut(x, y, source.width(), source.height());
    let source = source.as_rows_ref();
    rows::blend(&source, entries, width, height, stride, weight);
}

/// Blends all visible pixels of `source` over a rectangle of `target`, each pixel with its own weight from `mask`. The top left
/// pixel of `source` is blended at column `x` of row `y`.
///
/// `mask` has the same size as `source`. A target pixel of value `p` becomes `(p * (255 - m) + q * m) / 255`, rounded to the
/// nearest integer, where `q` is the value of the source pixel and `m` the value of the mask pixel. A mask value of 0 leaves
/// the target pixel unchanged, and a mask value of 255 copies the source pixel.
///
/// The whole of `source` must fit inside `target` at this position. The other pixels of `target` and its padding stay
/// unchanged.
pub fn blend_region_with_mask<T: Pixel>(
    source: &PlaneRef<'_, T>,
    mask: &PlaneRef<'_, u8>,
    target: &mut Plane<T>,
    x: usize,
    y: usize,
)
    requires wide { x + source.now.geometry.width ≤ target.old.geometry.width }
    requires high { y + source.now.geometry.height ≤ target.old.geometry.height }
    requires mask_wide { mask.now.geometry.width ≡ source.now.geometry.width }
    requires mask_high { mask.now.geometry.height ≡ source.now.geometry.height }
    ensures inside { (i j : ℕ) (p q : T) (weight : ℕ)
        → pixel_at (table_of target.old) (x + i) (y + j) ≡ Some p
        → pixel_at (table_of source.now) i j ≡ Some q → pixel_at (table_of mask.now) i j ≡ Some weight
        → pixel_at (table_of target.new) (x + i) (y + j) ≡ Some (blended T.form 255 weight p q) }
    ensures beside { (i j : ℕ) → ((i < x) ⊎ (x + source.now.geometry.width ≤ i))
        ⊎ ((j < y) ⊎ (y + source.now.geometry.height ≤ j))
        → pixel_at (table_of target.new) i j ≡ pixel_at (table_of target.old) i j }
    ensures border { KeepsBorder target.old target.new }
{
    let VisibleMut {
        entries,
        width,
        height,
        stride,
    } = target.visible_region_mut(x, y, source.width(), source.height());
    let (source, mask) = (source.as_rows_ref(), mask.as_rows_ref());
    rows::blend_with_mask(&source, &mask, entries, width, height, stride);
}

/// Copies the visible pixels of `source` into `target`, clipped to the visible pixels of `target`. The top left pixel of
/// `source` belongs at column `x` of row `y`, and both numbers may be negative or lie past the edge.
///
/// Source pixels that fall outside the target are skipped. The other pixels of `target` and its padding stay unchanged.
pub fn copy_region_clipped<T: Pixel>(
    source: &PlaneRef<'_, T>,
    target: &mut Plane<T>,
    x: isize,
    y: isize,
)
    ensures inside { (i j k l : ℕ) → i < source.now.geometry.width → j < source.now.geometry.height
        → k < target.old.geometry.width → l < target.old.geometry.height → LiesOn x y i j k l
        → pixel_at (table_of target.new) k l ≡ pixel_at (table_of source.now) i j }
    ensures beside { (k l : ℕ)
        → ((i j : ℕ) → i < source.now.geometry.width → j < source.now.geometry.height
        → ¬ LiesOn x y i j k l)
        → pixel_at (table_of target.new) k l ≡ pixel_at (table_of target.old) k l }
    ensures border { KeepsBorder target.old target.new }
{
    let source = source.as_rows_ref();
    let VisibleMut {
        entries,
        width,
        height,
        stride,
    } = target.visible_mut();
    rows::copy_region_clipped(&source, entries, width, height, stride, x, y);
}

/// Replaces each visible pixel of `plane` by its absolute difference from the pixel of `other` in the same column and row,
/// multiplied by `gain` and clipped to the largest value of the bit depth.
///
/// A pixel of value `p` becomes `min(|p - q| * gain, 2^depth - 1)`, where `q` is the value of the pixel of `other`. With a gain
/// of 1 the result equals that of FFmpeg's filter `blend=difference`. Both planes have the same size. `depth` is at most 8 for
/// `u8` and at most 16 for `u16`. The padding stays unchanged.
pub fn difference<T: Pixel>(other: &PlaneRef<'_, T>, plane: &mut Plane<T>, gain: u16, depth: u8)
    requires wide { other.now.geometry.width ≡ plane.old.geometry.width }
    requires high { other.now.geometry.height ≡ plane.old.geometry.height }
    requires depth { depth ≤ 8 * T.BYTES }
    ensures table { table_of plane.new
        ≡ combined (combined (difference_of T.form gain depth)) (table_of plane.old) (table_of other.now) }
    ensures border { KeepsBorder plane.old plane.new }
{
    let largest = largest_value::<T>(depth);
    combine_pixels(
        plane,
        other,
        |p: T, q: T|
            requires { largest < 256 ^ T.BYTES }
            ensures { result ≡ T.form.pixel_of (min (abs_diff (T.form.value p) (T.form.value q) * gain) largest) }
        { pixel_difference(p, q, gain, largest) },
    );
}

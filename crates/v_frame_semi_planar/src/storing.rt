//! Stores the bytes of a semi-planar layout in the planes of a frame.
ghost use Rattle.std.specs.Prelude.{ℕ, ◌≡◌, ◌*◌, ◌<◌, List, length, option_map, slice_set, Some};
ghost use Rattle.v_frame.specs.Prelude.{border_and_geometry, row_major, table_of, KeepsBorder};
ghost use Rattle.v_frame_ops.specs.Change.{combined};
ghost use Rattle.v_frame_planar.specs.Planar.{size_of};
ghost use Rattle.v_frame_semi_planar.specs.Interleaved.{interleaved};
ghost use Rattle.v_frame_semi_planar.specs.Format.{unused_bits};
ghost use Rattle.v_frame_semi_planar.specs.SemiPlanar.{chroma_pixels, shown_pixels};

use crate::format::SemiPlanarFormat;
use crate::samples::{decode_pairs, decode_samples};
use v_frame::pixel::Pixel;
use v_frame::plane::Plane;

/// Decodes `bytes` into a plane. Their number must be that of the plane.
pub(crate) fn store_plane<T: Pixel>(plane: &mut Plane<T>, bytes: &[u8], unused: u32)
    requires long { length bytes.now ≡ T.form.size * length (row_major (table_of plane.old)) }
    requires few { unused < 8 }
    ensures pixels { row_major (table_of plane.new) ≡ shown_pixels T.form unused
        (length (row_major (table_of plane.old))) bytes.now }
    ensures border { KeepsBorder plane.old plane.new }
    ensures size { size_of (table_of plane.new) ≡ size_of (table_of plane.old) }
{
    // The size of the table is the size that is read from the plane, before and after.
    let _before = (plane.width(), plane.height());
    store_luma(plane, bytes, unused);
    let _after = (plane.width(), plane.height());
}

/// Decodes the interleaved samples in `bytes` into two planes of the same size. The number of bytes must be that of both planes
/// together.
pub(crate) fn store_pair<T: Pixel>(
    first: &mut Plane<T>,
    second: &mut Plane<T>,
    bytes: &[u8],
    unused: u32,
)
    requires same { size_of (table_of first.old) ≡ size_of (table_of second.old) }
    requires long { length bytes.now ≡ T.form.size
        * length (row_major (combined interleaved (table_of first.old) (table_of second.old))) }
    requires few { unused < 8 }
    ensures pixels { row_major (combined interleaved (table_of first.new) (table_of second.new))
        ≡ shown_pixels T.form unused
        (length (row_major (combined interleaved (table_of first.old) (table_of second.old))))
        bytes.now }
    ensures border { KeepsBorder first.old first.new }
    ensures second_border { KeepsBorder second.old second.new }
    ensures size { size_of (table_of first.new) ≡ size_of (table_of first.old) }
    ensures second_size { size_of (table_of second.new) ≡ size_of (table_of second.old) }
{
    // The size of each table is the size that is read from its plane, before and after.
    let _before = (first.width(), first.height());
    let _second_before = (second.width(), second.height());
    store_chroma(first, second, bytes, unused);
    let _after = (first.width(), first.height());
    let _second_after = (second.width(), second.height());
}

/// Decodes `bytes` into a plane, row by row.
fn store_luma<T: Pixel>(plane: &mut Plane<T>, bytes: &[u8], unused: u32)
    requires long { length bytes.now
        ≡ plane.old.geometry.width * plane.old.geometry.height * T.form.size }
    requires few { unused < 8 }
    ensures pixels { row_major (table_of plane.new) ≡ shown_pixels T.form unused
        (plane.old.geometry.height * plane.old.geometry.width) bytes.now }
    ensures border { KeepsBorder plane.old plane.new }
{
    let (width, height) = (plane.width(), plane.height());
    let row_bytes = width * T::BYTES;
    for y in 0..height {
        let start = row_bytes * y;
        store_luma_row(plane, y, &bytes[start..start + row_bytes], unused);
    }
}

/// Decodes `bytes` into row `y` of a plane.
fn store_luma_row<T: Pixel>(plane: &mut Plane<T>, y: usize, bytes: &[u8], unused: u32)
    requires high { y < plane.old.geometry.height }
    requires long { length bytes.now ≡ T.BYTES * plane.old.geometry.width }
    requires few { unused < 8 }
    ensures table { table_of plane.new ≡ slice_set (table_of plane.old) y
        (shown_pixels T.form unused plane.old.geometry.width bytes.now) }
    ensures border { KeepsBorder plane.old plane.new }
{
    decode_samples(plane.visible_row_mut(y), bytes, unused);
}

/// Decodes the interleaved samples in `bytes` into two planes of the same size, row by row.
fn store_chroma<T: Pixel>(first: &mut Plane<T>, second: &mut Plane<T>, bytes: &[u8], unused: u32)
    requires wide { second.old.geometry.width ≡ first.old.geometry.width }
    requires high { second.old.geometry.height ≡ first.old.geometry.height }
    requires long { length bytes.now
        ≡ 2 * (first.old.geometry.width * first.old.geometry.height * T.form.size) }
    requires few { unused < 8 }
    ensures pixels { row_major (combined interleaved (table_of first.new) (table_of second.new))
        ≡ shown_pixels T.form unused
        (first.old.geometry.height * (2 * first.old.geometry.width)) bytes.now }
    ensures border { KeepsBorder first.old first.new }
    ensures second_border { KeepsBorder second.old second.new }
{
    let (width, height) = (first.width(), first.height());
    let row_bytes = 2 * (width * T::BYTES);
    for y in 0..height {
        let start = row_bytes * y;
        let row = &bytes[start..start + row_bytes];
        store_chroma_rows(first, second, y, row, unused);
    }
}

/// Decodes the interleaved samples in `bytes` into row `y` of both planes.
fn store_chroma_rows<T: Pixel>(
    first: &mut Plane<T>,
    second: &mut Plane<T>,
    y: usize,
    bytes: &[u8],
    unused: u32,
)
    requires high { y < first.old.geometry.height }
    requires second_high { y < second.old.geometry.height }
    requires wide { second.old.geometry.width ≡ first.old.geometry.width }
    requires long { length bytes.now ≡ 2 * T.BYTES * first.old.geometry.width }
    requires few { unused < 8 }
    ensures tables { (u v : List T) × (table_of first.new ≡ slice_set (table_of first.old) y u)
        × (table_of second.new ≡ slice_set (table_of second.old) y v)
        × (interleaved u v
        ≡ shown_pixels T.form unused (2 * first.old.geometry.width) bytes.now) }
    ensures border { KeepsBorder first.old first.new }
    ensures second_border { KeepsBorder second.old second.new }
{
    decode_pairs(
        first.visible_row_mut(y),
        second.visible_row_mut(y),
        bytes,
        unused,
    );
}

/// Decodes the interleaved samples in `bytes` into the chroma planes, in the order of the layout. The number of bytes must be
/// that of both planes together.
pub(crate) fn store_chroma_planes<T: Pixel>(
    u_plane: &mut Option<Plane<T>>,
    v_plane: &mut Option<Plane<T>>,
    bytes: &[u8],
    format: SemiPlanarFormat,
)
    requires same { (size : ℕ × ℕ) × (option_map size_of (option_map table_of u_plane.old) ≡ Some size)
        × (option_map size_of (option_map table_of v_plane.old) ≡ Some size) }
    requires long { length bytes.now ≡ T.form.size * length (chroma_pixels format
        (option_map table_of u_plane.old) (option_map table_of v_plane.old)) }
    ensures pixels { chroma_pixels format (option_map table_of u_plane.new)
        (option_map table_of v_plane.new) ≡ shown_pixels T.form (unused_bits format)
        (length (chroma_pixels format (option_map table_of u_plane.old)
        (option_map table_of v_plane.old))) bytes.now }
    ensures u_border { option_map border_and_geometry u_plane.new
        ≡ option_map border_and_geometry u_plane.old }
    ensures v_border { option_map border_and_geometry v_plane.new
        ≡ option_map border_and_geometry v_plane.old }
    ensures u_size { option_map size_of (option_map table_of u_plane.new)
        ≡ option_map size_of (option_map table_of u_plane.old) }
    ensures v_size { option_map size_of (option_map table_of v_plane.new)
        ≡ option_map size_of (option_map table_of v_plane.old) }
{
    let Some(u) = u_plane else { unreachable!() };
    let Some(v) = v_plane else { unreachable!() };
    if format.begins_with_v() {
        store_pair(v, u, bytes, format.unused_bits());
        return;
    }
    store_pair(u, v, bytes, format.unused_bits());
}

//! Laws of pixel positions, planes and bytes: facts that callers may rely on beyond a single call.
//!
//! Each function makes the calls that its law is about, and its contract states the law. A law that is only about definitions
//! has an empty body. Not part of `v_frame` 0.7.0.
ghost use Rattle.std.specs.Prelude.{All, List, ℕ, ◌≡◌, ◌*◌, ◌<◌, ◌≤◌, ◌↔◌, IsTrue};
ghost use Rattle.v_frame_raster.specs.Geometry.{Geometry, usize_max};
ghost use Rattle.v_frame_raster.specs.Pixel.{one_byte};
ghost use Rattle.v_frame_raster.specs.Table.{Table, width_of, height_of, row_major};
ghost use Rattle.v_frame_raster.specs.Raster.{Raster, table_of};
ghost use Rattle.v_frame_plane.specs.Copy.{Copies, packed_copy, strided_copy, packed_byte_copy, ComesBack};
ghost use Rattle.v_frame_raster.specs.StridedRows.{piece_fronts};
ghost use Rattle.v_frame_plane.specs.Dropped.{DroppedPixelsKeepTheirValues, DroppedRowsKeepTheirPixels, RowsAreHeld};
ghost use Rattle.v_frame_plane.specs.HeldItems.{HeldItemsMakeTheTable};
ghost use Rattle.std.specs.Borrow.{sem};
ghost use Rattle.v_frame_raster.specs.RasterLaws.{DeterminesBuffer, HasPlaces, HasMarks, HoldsPixels, HoldsRows};
ghost use Rattle.v_frame_raster.specs.RasterLaws.{IsMadeOfEntries, ShowsRectangle};

use crate::plane::{CopyError, Plane};
use v_frame_raster::pixel::Pixel;

/// The geometry, the table and the border of a plane together determine its buffer.
#[tactic(auto, using(v_frame_raster::proofs::tables::Determined::determines_buffer))]
pub fn buffer_is_determined<T: Pixel>()
    ensures { DeterminesBuffer T }
{}

/// Each visible pixel of a plane has its own place in the buffer. The place lies in no piece of the border.
#[tactic(auto, using(v_frame_raster::proofs::tables::OwnPlaces::has_places))]
pub fn pixels_have_places()
    ensures { (g : Geometry) → HasPlaces g }
{}

/// The entry at the place of a visible pixel is this pixel.
#[tactic(auto, using(v_frame_raster::proofs::tables::Places::pixel_inside))]
pub fn places_hold_pixels<T: Pixel>()
    ensures { (p : Raster T) → HoldsPixels p }
{}

/// Each row of a table is a part of the buffer. It begins at the place of its first pixel, and its length is the visible width.
#[tactic(auto, using(v_frame_raster::proofs::tables::Places::rows_are_parts))]
pub fn rows_are_parts<T>()
    ensures { (p : Raster T) → HoldsRows p }
{}

/// The table of a plane is a rectangle of its whole buffer, if the buffer is seen as a picture without a border.
#[tactic(auto, using(v_frame_raster::proofs::tables::Regions::shows_rectangle))]
pub fn tables_are_rectangles<T>()
    ensures { (p : Raster T) → ShowsRectangle p }
{}

/// Each place of a buffer has a mark, which its row and column determine: visible inside the visible rectangle, border outside
/// it. No place past the end of the buffer has a mark.
#[tactic(auto, using(v_frame_raster::proofs::tables::Marks::has_marks))]
pub fn places_have_marks()
    ensures { (g : Geometry) → HasMarks g }
{}

/// Two planes with equal geometries show the same table if they hold equal entries at all visible places. They have the same
/// border if they hold equal entries at all border places.
#[tactic(auto, using(v_frame_raster::proofs::tables::Entries::made_of_entries))]
pub fn same_entries_same_table<T: Pixel>()
    ensures { (p q : Raster T) → p.geometry ≡ q.geometry → IsMadeOfEntries p q }
{}

/// Two planes are equal if and only if their geometries and their whole buffers are equal, including the borders.
pub fn planes_are_equal<T: Pixel>(p: &Plane<T>, q: &Plane<T>) -> bool
    ensures { IsTrue result ↔ (p.now.geometry ≡ q.now.geometry) × (p.now.buffer ≡ q.now.buffer) }
{
    p == q
}

/// After a successful copy of packed bytes, the bytes of the table are the bytes of the source.
pub fn bytes_come_back<T: Pixel>()
    ensures { (table : Table T) (source : List ℕ) → All (λ byte. byte < 256) source
        → ComesBack T.form source (packed_byte_copy T.form table source) }
{}

/// After a successful copy of bytes with a stride, the bytes of the table are the bytes of the source without the bytes between
/// the rows.
pub fn bytes_come_back_without_tails<T: Pixel>()
    ensures { (table : Table T) (source : List ℕ) (stride : ℕ) → All (λ byte. byte < 256) source
        → ComesBack T.form (row_major (piece_fronts (width_of table * T.form.size) stride
        (height_of table) source)) (strided_copy T.form table source stride) }
{}

/// For pixels of one byte, a copy of packed bytes has the same outcome as a copy of packed pixels. The number of pixels of the
/// table must fit into a `usize`.
#[tactic(auto, using(crate::proofs::copies::ByteLaws::one_byte_copies))]
pub fn packed_outcomes_agree()
    ensures { (table : Table ℕ) (source : List ℕ)
        → width_of table * height_of table ≤ usize_max
        → packed_byte_copy one_byte table source ≡ packed_copy table source }
{}

/// The copy of packed pixels and the copy of packed bytes do the same to two equal planes of one-byte pixels, and leave equal
/// planes.
pub fn packed_copies_agree(
    left: &mut Plane<u8>,
    right: &mut Plane<u8>,
    src: &[u8],
) -> (Result<(), CopyError>, Result<(), CopyError>)
    requires { left.old ≡ right.old }
    ensures pixels { Copies left.old left.new result.0 (packed_copy (table_of left.old) src.now) }
    ensures bytes { Copies right.old right.new result.1 (packed_copy (table_of right.old) src.now) }
    ensures planes { left.new ≡ right.new }
{
    let of_pixels = left.copy_from_slice(src);
    let of_bytes = right.copy_from_u8_slice(src);
    // Whole buffers with equal geometries are equal if their tables and their borders are equal.
    let (_left, _right) = (left.data(), right.data());
    (of_pixels, of_bytes)
}

/// If an iterator that lends rows for writing is dropped, its remaining rows still hold their current pixels when the borrow of
/// the plane ends. These pixels are their final values. The clauses `leaves` of `RowsMut::next` and `RowsMut::next_back` relate
/// these final values to the rows with which the iterator began.
pub fn dropped_rows_keep_their_pixels<T>()
    ensures* { sem 𝓛 (DroppedRowsKeepTheirPixels T.row) }
{}

/// States the meaning of an iterator that lends rows for writing. If it is dropped, its remaining rows still hold their current
/// pixels when the borrow of the plane ends. The final values of the rows that `Plane::rows_mut` lends are the table of the
/// plane.
pub fn held_rows_are_the_table<T>()
    ensures* { sem 𝓛 (RowsAreHeld T.row) }
{}

/// Rows and pixels may be drawn from either end in any order, held after their iterator is dropped, and written in any order.
/// When the borrow of the plane ends, the table of the plane consists of the final values of all rows or pixels, each at the
/// place from which it was drawn. The rest of the plane is unchanged.
///
/// The law covers any list of calls of `next` and `next_back`. [`dropped_rows_keep_their_pixels`] and
/// [`dropped_pixels_keep_their_values`] state the final values of the items that no call drew, if the iterator is dropped.
pub fn held_items_make_the_table<T>()
    ensures* { sem 𝓛 (HeldItemsMakeTheTable T.row) }
{}

/// If an iterator that lends pixels for writing is dropped, its remaining pixels still hold their current values when the
/// borrow of the plane ends, as rows do.
pub fn dropped_pixels_keep_their_values<T>()
    ensures* { sem 𝓛 (DroppedPixelsKeepTheirValues T.row) }
{}

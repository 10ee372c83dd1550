//! Planes: the color components of a frame, such as luma or one chroma channel.
//!
//! A [`Plane`] is a rectangle of visible pixels inside a border. All of its rows are in one buffer, from top to bottom:
//!
//! ```text
//!              stride = pad_left + width + pad_right
//!     +-----------------------------------------------+
//!     |                    pad_top                    |
//!     +----------+------------------------+-----------+
//!     |          |o (0, 0)                |           |
//!     | pad_left |    width by height     | pad_right |
//!     |          |     visible pixels     |           |
//!     +----------+------------------------+-----------+
//!     |                  pad_bottom                   |
//!     +-----------------------------------------------+
//!       o is at index data_origin of the buffer, (x, y) at index data_origin + stride * y + x
//! ```
//!
//! The visible pixels form a table: a list of rows from top to bottom. [`copy_from_slice`](Plane::copy_from_slice),
//! [`row_mut`](Plane::row_mut), the iterators and the other calls for visible pixels write only this table.
//! [`data_mut`](Plane::data_mut) also gives access to the border, and [`pixel_mut`](Plane::pixel_mut) does when `x` is at least
//! the visible width. [`PlaneRef`] reads a plane whose buffer is stored elsewhere, for example in a decoder's picture.
//! [`RowsRef`] reads rows that have no border.
ghost use Rattle.std.specs.Prelude.{All, List, ℕ, ◌≡◌, [], ◌*◌, ◌^◌, ◌<◌, ◌≤◌, ◌↔◌, length, IsNone, IfOk, IfSome, Some, slice_get, option_copied};
ghost use Rattle.std.specs.Map.Iter.{ShowsInOrder, ShowsInReverse, GivesInOrder, GivesInReverse, deref};
ghost use Rattle.v_frame_raster.specs.Geometry.{alloc_size_of, Fits, place_of};
ghost use Rattle.v_frame_raster.specs.Pixel.{byte_list};
ghost use Rattle.v_frame_raster.specs.Table.{width_of, height_of, pixel_at, row_major};
ghost use Rattle.v_frame_raster.specs.Raster.{filled, table_of};

mod copies;
mod options;
mod pairs;
mod values;
mod visible;

pub use crate::bytes::ByteData;
pub use crate::error::CopyError;
pub use crate::pixels::Pixels;
pub use crate::pixels_mut::PixelsMut;
use crate::place::{row_in_buffer, row_start, visible_place};
pub use crate::plane_ref::PlaneRef;
pub use crate::rows::Rows;
pub use crate::rows_mut::RowsMut;
pub use crate::rows_ref::{RowsRef, rows_fit};
pub use crate::strided::{copy_rows, decode_rows, encode_rows};
pub use pairs::{split_row_mut, visible_rows_mut};
use std::alloc::{AllocError, Global};
use std::marker::Model;
use v_frame_buffer::AlignedData;
pub use v_frame_raster::geometry::{PlaneGeometry, SubsamplingError};
use v_frame_raster::pixel::Pixel;
pub use visible::VisibleMut;

/// A rectangle of visible pixels inside a border, stored in one buffer.
///
/// Rows are counted from the top and columns from the left, both starting at 0. Two planes are equal if their geometries and
/// their whole buffers are equal, including the borders. Ports `Plane` of `v_frame` 0.7.0.
#[derive(Drop)]
pub struct Plane<T> {
    geometry: PlaneGeometry,
    buffer: AlignedData<T>,
}

impl<T> Model for Plane<T> {
    ghost use Rattle.v_frame_raster.specs.Raster.{Raster, IsWhole};

    ghost Value = { Raster T };

    ghost view = { λ a. record { geometry = a.geometry; buffer = a.buffer } };

    ghost invariant = { λ a. IsWhole a.geometry a.buffer };
}

impl<T> Plane<T> {
    ghost use Rattle.std.specs.Borrow.{sem};
    ghost use Rattle.std.specs.Option.{option_copied_mut};
    ghost use Rattle.v_frame_plane.specs.Plane.{WritesEachRow};
    ghost use Rattle.v_frame_raster.specs.Writes.{WritesEachPixel};
    ghost use Rattle.v_frame_plane.specs.Lends.{LendsBuffer, LendsRow, LendsVisibleRow, LendsVisiblePixel};
    ghost use Rattle.v_frame_plane.specs.Cursor.{PixelsAreCountable};
    ghost use Rattle.v_frame_plane.specs.RowsLeft.{rows_left, LendsRowsInOrder, LendsRowsInReverse};
    ghost use Rattle.v_frame_plane.specs.FinalRows.{WritesEachTable};
    ghost use Rattle.v_frame_plane.specs.LendsTable.{LendsRows, LendsPixelTable};
    ghost use Rattle.v_frame_plane.specs.PixelsLeft.{pixels_left, LendsPixelsInOrder, LendsPixelsInReverse};

    /// Borrows the plane as a [`PlaneRef`]. Nothing is copied. Not part of `v_frame` 0.7.0.
    pub fn as_plane_ref(&self) -> PlaneRef<'_, T>
        ensures { result ≡ self.now }
    {
        PlaneRef::of_parts(self.geometry, self.buffer.as_slice())
    }

    /// Returns the width of the visible rectangle in pixels. It is never zero.
    ///
    /// Ports `Plane::width` of `v_frame` 0.7.0.
    #[tactic(auto, using(v_frame_raster::proofs::tables::Sizes::width_of_shown, v_frame_raster::proofs::tables::Places::rows_are_wide))]
    pub fn width(&self) -> usize
        ensures value { result ≡ self.now.geometry.width }
        ensures positive { 0 < result }
        ensures table { result ≡ width_of (table_of self.now) }
        ensures rows { All (λ row. length row ≡ result) (table_of self.now) }
    {
        self.geometry.width()
    }

    /// Returns the height of the visible rectangle in pixels. It is never zero.
    ///
    /// Ports `Plane::height` of `v_frame` 0.7.0.
    #[tactic(auto, using(v_frame_raster::proofs::tables::Sizes::height_of_shown))]
    pub fn height(&self) -> usize
        ensures value { result ≡ self.now.geometry.height }
        ensures positive { 0 < result }
        ensures table { result ≡ height_of (table_of self.now) }
    {
        self.geometry.height()
    }

    /// Returns the layout of the plane. The layout's [`checked_alloc_size`](PlaneGeometry::checked_alloc_size) is always
    /// `Some`.
    ///
    /// Ports `Plane::geometry` of `v_frame` 0.7.0, where it requires the feature `padding_api`.
    pub fn geometry(&self) -> PlaneGeometry
        ensures value { result ≡ self.now.geometry }
        ensures fits { Fits result }
    {
        self.geometry
    }

    /// Returns the whole buffer for reading: all rows from top to bottom, including the border.
    ///
    /// Ports `Plane::data` of `v_frame` 0.7.0, where it requires the feature `padding_api`.
    pub fn data(&self) -> &[T]
        ensures value { result.now ≡ self.now.buffer }
        ensures whole { length result.now ≡ alloc_size_of self.now.geometry }
    {
        self.as_plane_ref().data()
    }

    /// Returns the whole buffer for writing: all rows from top to bottom, including the border.
    ///
    /// Ports `Plane::data_mut` of `v_frame` 0.7.0, where it requires the feature `padding_api`.
    pub fn data_mut(&mut self) -> &mut [T]
        ensures* writes_back { sem 𝓛 (LendsBuffer T.row self.entry result) }
        ensures value { result.now ≡ self.old.buffer }
        ensures whole { length result.now ≡ alloc_size_of self.old.geometry }
    {
        self.buffer.as_mut_slice()
    }

    /// Returns the visible pixels of row `y`, or `None` if `y` is not less than [`height`](Self::height).
    ///
    /// Ports `Plane::row` of `v_frame` 0.7.0.
    pub fn row(&self, y: usize) -> Option<&[T]>
        ensures value { option_copied result ≡ slice_get (table_of self.now) y }
        ensures none { IsNone result ↔ (self.now.geometry.height ≤ y) }
        ensures wide { IfSome result (λ row. length row.now ≡ self.now.geometry.width) }
    {
        self.as_plane_ref().row(y)
    }

    /// Returns the visible pixels of row `y`. The row number `y` must be less than [`height`](Self::height).
    ///
    /// Not part of `v_frame` 0.7.0. Use [`row`](Self::row) if `y` may be out of range.
    pub fn visible_row(&self, y: usize) -> &[T]
        requires { y < self.now.geometry.height }
        ensures value { slice_get (table_of self.now) y ≡ Some result.now }
        ensures wide { length result.now ≡ self.now.geometry.width }
    {
        self.as_plane_ref().visible_row(y)
    }

    /// Returns the visible pixels of row `y` for writing, or `None` if `y` is not less than [`height`](Self::height).
    ///
    /// Automatic proofs know nothing about the pixels of the plane after a write through this slice, because the toolchain
    /// cannot follow a mutable slice inside an `Option`. Use [`visible_row_mut`](Self::visible_row_mut) if you need to prove
    /// what the plane shows after the write.
    ///
    /// Ports `Plane::row_mut` of `v_frame` 0.7.0.
    pub fn row_mut(&mut self, y: usize) -> Option<&mut [T]>
        ensures* writes_back { sem 𝓛 (LendsRow T.row self.entry y result) }
        ensures value { option_copied_mut result ≡ slice_get (table_of self.old) y }
        ensures none { IsNone result ↔ (self.old.geometry.height ≤ y) }
        ensures wide { IfSome result (λ row. length row.now ≡ self.old.geometry.width) }
    {
        if y >= self.height() {
            return None;
        }
        Some(self.visible_row_mut(y))
    }

    /// Returns the visible pixels of row `y` for writing. The row number `y` must be less than [`height`](Self::height).
    ///
    /// Not part of `v_frame` 0.7.0. Use [`row_mut`](Self::row_mut) if `y` may be out of range. The automatic proof of a caller
    /// knows which pixels are written through this slice.
    pub fn visible_row_mut(&mut self, y: usize) -> &mut [T]
        requires { y < self.old.geometry.height }
        ensures* writes_back { sem 𝓛 (LendsVisibleRow T.row self.entry y result) }
        ensures value { slice_get (table_of self.old) y ≡ Some result.now }
        ensures written { WritesEachRow self.old y result.now }
        ensures wide { length result.now ≡ self.old.geometry.width }
    {
        let geometry = self.geometry;
        let start = row_start(geometry, y);
        self.buffer.part_mut(start, start + geometry.width())
    }

    /// Returns a double-ended iterator over the visible rows, from top to bottom. Each item is a slice of
    /// [`width`](Self::width) pixels.
    ///
    /// Ports `Plane::rows` of `v_frame` 0.7.0.
    pub fn rows(&self) -> Rows<'_, T>
        ensures rows { result ≡ table_of self.now }
        ensures wide { All (λ row. length row ≡ self.now.geometry.width) result }
        ensures bound { length result < 2 ^ 63 }
        ensures runs { ShowsInOrder (deref {X = List T}) }
        ensures runs_back { ShowsInReverse (deref {X = List T}) }
    {
        self.as_plane_ref().rows()
    }

    /// Returns a double-ended iterator that lends the visible rows for writing, from top to bottom.
    ///
    /// A caller may keep a row while the iterator yields further rows. Kept rows may be written in any order, even after the
    /// iterator is dropped. When the borrow ends, each visible row holds the pixels that were last written to it; the border is
    /// unchanged. The contracts of [`RowsMut::next`] and [`RowsMut::next_back`] state which row of the plane each item is.
    ///
    /// The law [`held_rows_are_the_table`](crate::laws::held_rows_are_the_table) joins the clauses `writes_back` and `written`:
    /// the final rows of the iterator are the table of the plane. The law
    /// [`held_items_make_the_table`](crate::laws::held_items_make_the_table) extends it to any list of draws.
    ///
    /// Ports `Plane::rows_mut` of `v_frame` 0.7.0.
    pub fn rows_mut(&mut self) -> RowsMut<'_, T>
        ensures* writes_back { sem 𝓛 (LendsRows T.row self.entry result) }
        ensures rows { rows_left result ≡ table_of self.old }
        ensures written { WritesEachTable self.old result }
        ensures wide { All (λ row. length row ≡ self.old.geometry.width) (rows_left result) }
        ensures countable { PixelsAreCountable [] (rows_left result) [] }
        ensures bound { length (rows_left result) < 2 ^ 63 }
        ensures runs { LendsRowsInOrder T }
        ensures runs_back { LendsRowsInReverse T }
    {
        let geometry = self.geometry;
        RowsMut::new(geometry, self.buffer.as_mut_slice())
    }

    /// Returns the visible pixel in column `x` of row `y`, for writing. `x` must be less than [`width`](Self::width), and `y`
    /// must be less than [`height`](Self::height).
    ///
    /// Not part of `v_frame` 0.7.0. Use [`pixel_mut`](Self::pixel_mut) if `x` or `y` may be out of range. To write many pixels,
    /// write whole rows instead, which is much faster.
    pub fn visible_pixel_mut(&mut self, x: usize, y: usize) -> &mut T
        requires wide { x < self.old.geometry.width }
        requires high { y < self.old.geometry.height }
        ensures* writes_back { sem 𝓛 (LendsVisiblePixel T.row self.entry x y result) }
        ensures value { slice_get self.old.buffer (place_of self.old.geometry x y)
            ≡ Some result.now }
        ensures within { place_of self.old.geometry x y < alloc_size_of self.old.geometry }
        ensures inside { pixel_at (table_of self.old) x y ≡ Some result.now }
        ensures written { WritesEachPixel self.old x y }
    {
        let place = visible_place(self.geometry, x, y);
        self.buffer.entry_mut(place)
    }

    /// Returns a double-ended iterator that lends the visible pixels for writing, row by row from the top.
    ///
    /// A caller may keep a pixel while the iterator yields further pixels. Kept pixels may be written in any order, even after
    /// the iterator is dropped. When the borrow ends, each visible pixel holds the value that was last written to it; the
    /// border is unchanged. The contracts of [`PixelsMut::next`] and [`PixelsMut::next_back`] state which pixel of the plane
    /// each item is. To write whole rows, [`rows_mut`](Self::rows_mut) is much faster.
    ///
    /// Ports `Plane::pixels_mut` of `v_frame` 0.7.0.
    pub fn pixels_mut(&mut self) -> PixelsMut<'_, T>
        ensures* ends { sem 𝓛 (LendsPixelTable T.row self.entry result) }
        ensures pixels { pixels_left result ≡ row_major (table_of self.old) }
        ensures bound { length (pixels_left result) < 2 ^ 63 }
        ensures runs { LendsPixelsInOrder T }
        ensures runs_back { LendsPixelsInReverse T }
    {
        PixelsMut::new(self.rows_mut())
    }
}

impl<T: Pixel> Plane<T> {
    ghost use Rattle.std.specs.Borrow.{sem};
    ghost use Rattle.std.specs.Option.{option_copied_mut};
    ghost use Rattle.v_frame_raster.specs.Writes.{WritesEachPixel};
    ghost use Rattle.v_frame_plane.specs.Lends.{LendsPixel};

    /// Allocates a plane with layout `geometry` whose entries are all zero, including the border.
    ///
    /// The [`checked_alloc_size`](PlaneGeometry::checked_alloc_size) of `geometry` must be `Some`.
    ///
    /// Not part of `v_frame` 0.7.0. Users of `v_frame` 0.7.0 get planes only from a frame builder, because its `Plane::new` is
    /// private.
    ///
    /// # Errors
    ///
    /// [`AllocError`] if the memory for the buffer cannot be allocated.
    pub fn new(alloc: Global, geometry: PlaneGeometry) -> Result<Self, AllocError>
        requires { Fits geometry }
        ensures { IfOk result (λ plane. plane ≡ filled T.ZERO geometry) }
    {
        let buffer = AlignedData::new(alloc, T::ZERO, geometry.alloc_size())?;
        Ok(Plane { geometry, buffer })
    }

    /// Returns the entry of the buffer at `data_origin + stride * y + x`, or `None` if this index is past the end of the
    /// buffer.
    ///
    /// For a visible pixel, this is the pixel in column `x` of row `y`. If `x` is at least the visible width, the entry belongs
    /// to the border, or to the next row if there is no border. Only the end of the buffer is checked. Ports `Plane::pixel` of
    /// `v_frame` 0.7.0, which has the same behavior.
    pub fn pixel(&self, x: usize, y: usize) -> Option<T>
        ensures value { result ≡ slice_get self.now.buffer (place_of self.now.geometry x y) }
        ensures none { IsNone result
            ↔ (alloc_size_of self.now.geometry ≤ place_of self.now.geometry x y) }
        ensures inside { x < self.now.geometry.width → y < self.now.geometry.height
            → result ≡ pixel_at (table_of self.now) x y }
    {
        self.as_plane_ref().pixel(x, y)
    }

    /// Returns the entry of the buffer at `data_origin + stride * y + x` for writing, or `None` if this index is past the end
    /// of the buffer.
    ///
    /// As with [`pixel`](Self::pixel), the entry may lie in the border or in the next row if `x` is at least the visible width.
    /// To write many pixels, write whole rows instead, which is much faster. Ports `Plane::pixel_mut` of `v_frame` 0.7.0.
    pub fn pixel_mut(&mut self, x: usize, y: usize) -> Option<&mut T>
        ensures* writes_back { sem 𝓛 (LendsPixel T.row self.entry x y result) }
        ensures value { option_copied_mut result
            ≡ slice_get self.old.buffer (place_of self.old.geometry x y) }
        ensures none { IsNone result
            ↔ (alloc_size_of self.old.geometry ≤ place_of self.old.geometry x y) }
        ensures inside { x < self.old.geometry.width → y < self.old.geometry.height
            → option_copied_mut result ≡ pixel_at (table_of self.old) x y }
        ensures written { x < self.old.geometry.width → y < self.old.geometry.height
            → WritesEachPixel self.old x y }
    {
        let start = row_in_buffer(self.geometry, y)?;
        self.buffer.get_mut_after(start, x)
    }

    /// Returns a double-ended iterator over the visible pixels, row by row from the top.
    ///
    /// Ports `Plane::pixels` of `v_frame` 0.7.0.
    pub fn pixels(&self) -> Pixels<'_, T>
        ensures pixels { result ≡ row_major (table_of self.now) }
        ensures count { length result ≡ self.now.geometry.width * self.now.geometry.height }
        ensures bound { length result < 2 ^ 63 }
        ensures runs { GivesInOrder T }
        ensures runs_back { GivesInReverse T }
    {
        self.as_plane_ref().pixels()
    }

    /// Returns a double-ended iterator over the bytes of the visible pixels, row by row from the top. Each pixel is encoded in
    /// little-endian order.
    ///
    /// Ports `Plane::byte_data` of `v_frame` 0.7.0.
    pub fn byte_data(&self) -> ByteData<'_, T>
        ensures bytes { result ≡ byte_list T.form (table_of self.now) }
        ensures count { length result
            ≡ self.now.geometry.width * self.now.geometry.height * T.form.size }
        ensures bound { length result < 2 ^ 63 }
        ensures runs { GivesInOrder ℕ }
        ensures runs_back { GivesInReverse ℕ }
    {
        self.as_plane_ref().byte_data()
    }

    /// Returns the number of bytes that [`byte_data`](Self::byte_data) yields: `width * height` times the size of a pixel in
    /// bytes.
    ///
    /// No pixel is read. Not part of `v_frame` 0.7.0.
    pub fn byte_len(&self) -> usize
        ensures value { result
            ≡ self.now.geometry.width * self.now.geometry.height * T.form.size }
        ensures bytes { result ≡ length (byte_list T.form (table_of self.now)) }
        ensures table { let table = table_of self.now in
            result ≡ width_of table * height_of table * T.form.size }
        ensures bound { result < 2 ^ 63 }
    {
        self.as_plane_ref().byte_len()
    }
}

//! Borrowed planes: a geometry, and a slice that is the whole buffer.
ghost use Rattle.std.specs.Prelude.{All, List, ℕ, ◌≡◌, ◌^◌, ◌<◌, ◌≤◌, ◌*◌, ◌↔◌, drop, length, unsigned_abs, IsNone, IfSome, SomeIff, Some, slice_get, option_copied};
ghost use Rattle.std.specs.Map.Iter.{ShowsInOrder, ShowsInReverse, GivesInOrder, GivesInReverse, deref};
ghost use Rattle.v_frame_raster.specs.Geometry.{alloc_size_of, Fits, IsInside, origin_of, place_of, region_geometry, buffer_column, buffer_region, buffer_row, IsInBuffer};
ghost use Rattle.v_frame_raster.specs.Pixel.{byte_list};
ghost use Rattle.v_frame_raster.specs.Table.{width_of, height_of, pixel_at, rectangle, row_major};
ghost use Rattle.v_frame_raster.specs.Raster.{IsWhole, raster, table_of, whole_rows};

use crate::bytes::ByteData;
use crate::pixels::Pixels;
use crate::place::{row_in_buffer, row_start, visible_place, visible_size};
use crate::rows::Rows;
use crate::rows_ref::RowsRef;
use crate::strided::encode_rows;
use std::fmt;
use std::marker::Model;
use v_frame_raster::geometry::PlaneGeometry;
use v_frame_raster::pixel::Pixel;

/// A borrowed plane whose buffer is stored elsewhere: a geometry, and a slice that is the whole buffer.
///
/// The slice may belong to a decoder's picture, to a file in memory or to an array. A [`Plane`](crate::plane::Plane) is
/// borrowed as a `PlaneRef` by [`as_plane_ref`](crate::plane::Plane::as_plane_ref). Contracts see a `PlaneRef` as a plane. Not
/// part of `v_frame` 0.7.0.
#[derive(Drop)]
pub struct PlaneRef<'a, T> {
    geometry: PlaneGeometry,
    buffer: &'a [T],
}

impl<'a, T> Model for PlaneRef<'a, T> {
    ghost use Rattle.v_frame_raster.specs.Raster.{Raster, IsWhole};

    ghost Value = { Raster T };

    ghost view = { λ a. record { geometry = a.geometry; buffer = a.buffer.now } };

    ghost invariant = { λ a. IsWhole a.geometry a.buffer.now };
}

impl<'a, T> PlaneRef<'a, T> {
    /// Returns the plane with layout `geometry` whose whole buffer is `buffer`. Returns `None` if
    /// [`checked_alloc_size`](PlaneGeometry::checked_alloc_size) is not `Some` of the length of `buffer`.
    ///
    /// Not part of `v_frame` 0.7.0.
    pub fn new(geometry: PlaneGeometry, buffer: &'a [T]) -> Option<Self>
        ensures { SomeIff result (IsWhole geometry buffer.now) (raster geometry buffer.now) }
    {
        if geometry.checked_alloc_size() != Some(buffer.len()) {
            return None;
        }
        Some(Self::of_parts(geometry, buffer))
    }

    /// Returns the plane of these parts. `buffer` must be a whole buffer for `geometry`.
    pub(crate) fn of_parts(geometry: PlaneGeometry, buffer: &'a [T]) -> Self
        requires { IsWhole geometry buffer.now }
        ensures { result ≡ raster geometry buffer.now }
    {
        PlaneRef { geometry, buffer }
    }

    /// Returns the visible rows, without the border. Nothing is copied. Not part of `v_frame` 0.7.0.
    pub fn as_rows_ref(&self) -> RowsRef<'a, T>
        ensures value { result ≡ table_of self.now }
        ensures width { width_of result ≡ self.now.geometry.width }
        ensures height { height_of result ≡ self.now.geometry.height }
    {
        let geometry = self.geometry;
        let (_, visible) = self.buffer.split_at(geometry.data_origin());
        RowsRef::of_parts(
            visible,
            geometry.width(),
            geometry.height(),
            geometry.stride(),
        )
    }

    /// Returns a second `PlaneRef` to the same plane. Nothing is copied.
    ///
    /// Not part of `v_frame` 0.7.0. In Rattle, `Clone` may fail, and a type with its own model cannot be `Copy`.
    pub fn duplicate(&self) -> Self
        ensures { result ≡ self.now }
    {
        PlaneRef {
            geometry: self.geometry,
            buffer: self.buffer,
        }
    }

    /// Returns the rectangle of `width` by `height` visible pixels that begins at column `x` of row `y`, as a plane over the
    /// same buffer.
    ///
    /// Everything around the rectangle becomes border, and the subsampling ratios are unchanged. Nothing is copied. A motion
    /// search can therefore compare blocks of a plane with the calls that compare whole planes.
    ///
    /// Returns `None` if the rectangle is empty or does not lie inside the visible one. Not part of `v_frame` 0.7.0.
    #[tactic(auto, using(v_frame_raster::proofs::tables::Regions::region_shows))]
    pub fn region(&self, x: usize, y: usize, width: usize, height: usize) -> Option<Self>
        ensures value { let geometry = self.now.geometry in
            SomeIff result (IsInside geometry x y width height)
            (raster (region_geometry geometry x y width height) self.now.buffer) }
        ensures table { IfSome result (λ region. table_of region
            ≡ rectangle x y width height (table_of self.now)) }
    {
        let geometry = self.geometry.region(x, y, width, height)?;
        Some(Self::of_parts(geometry, self.buffer))
    }

    /// Returns the rectangle of `width` by `height` visible pixels that begins at column `x` of row `y`, as
    /// [`region`](Self::region) does.
    ///
    /// The rectangle must not be empty, and must lie inside the visible one: `x + width` may be at most [`width`](Self::width),
    /// and `y + height` at most [`height`](Self::height). Not part of `v_frame` 0.7.0.
    #[tactic(auto, using(v_frame_raster::proofs::tables::Regions::region_shows))]
    pub fn visible_region(&self, x: usize, y: usize, width: usize, height: usize) -> Self
        requires { IsInside self.now.geometry x y width height }
        ensures value { result
            ≡ raster (region_geometry self.now.geometry x y width height) self.now.buffer }
        ensures table { table_of result ≡ rectangle x y width height (table_of self.now) }
        ensures width { result.geometry.width ≡ width }
        ensures height { result.geometry.height ≡ height }
    {
        let geometry = self.geometry.visible_region(x, y, width, height);
        Self::of_parts(geometry, self.buffer)
    }

    /// Returns a rectangle as [`region`](Self::region) does, but it may extend into the border. Column `x` and row `y` are
    /// counted from the first visible pixel, so columns to its left and rows above it are negative. A motion vector may point
    /// at such a rectangle.
    ///
    /// Nothing is copied. Returns `None` if the rectangle is empty or does not lie inside the buffer. Not part of `v_frame`
    /// 0.7.0.
    pub fn region_with_border(
        &self,
        x: isize,
        y: isize,
        width: usize,
        height: usize,
    ) -> Option<Self>
        ensures value { let geometry = self.now.geometry in
            SomeIff result (IsInBuffer geometry x y width height)
            (raster (buffer_region geometry x y width height) self.now.buffer) }
        ensures table { let geometry = self.now.geometry in IfSome result (λ region. table_of region
            ≡ rectangle (unsigned_abs (buffer_column geometry x)) (unsigned_abs (buffer_row geometry y))
            width height (whole_rows self.now)) }
    {
        let geometry = self.geometry.region_with_border(x, y, width, height)?;
        Some(Self::of_parts(geometry, self.buffer))
    }

    /// Returns the width of the visible rectangle in pixels. It is never zero.
    #[tactic(auto, using(v_frame_raster::proofs::tables::Sizes::width_of_shown, v_frame_raster::proofs::tables::Places::rows_are_wide))]
    pub fn width(&self) -> usize
        ensures value { result ≡ self.now.geometry.width }
        ensures positive { 0 < result }
        ensures table { result ≡ width_of (table_of self.now) }
        ensures rows { All (λ row. length row ≡ result) (table_of self.now) }
    {
        self.geometry.width()
    }

    /// Returns the height of the visible rectangle in pixels. It is never zero.
    #[tactic(auto, using(v_frame_raster::proofs::tables::Sizes::height_of_shown, v_frame_raster::proofs::Plans::visible_within))]
    pub fn height(&self) -> usize
        ensures value { result ≡ self.now.geometry.height }
        ensures positive { 0 < result }
        ensures table { result ≡ height_of (table_of self.now) }
        ensures countable { result * self.now.geometry.width < 2 ^ 63 }
    {
        self.geometry.height()
    }

    /// Returns the layout of the plane. The layout's [`checked_alloc_size`](PlaneGeometry::checked_alloc_size) is always
    /// `Some`.
    pub fn geometry(&self) -> PlaneGeometry
        ensures value { result ≡ self.now.geometry }
        ensures fits { Fits result }
    {
        self.geometry
    }

    /// Returns the whole buffer: all rows from top to bottom, including the border.
    pub fn data(&self) -> &'a [T]
        ensures value { result.now ≡ self.now.buffer }
        ensures whole { length result.now ≡ alloc_size_of self.now.geometry }
    {
        self.buffer
    }

    /// Returns the visible pixels of row `y`, or `None` if `y` is not less than [`height`](Self::height).
    #[tactic(auto, using(v_frame_raster::proofs::tables::Places::no_row_below))]
    pub fn row(&self, y: usize) -> Option<&'a [T]>
        ensures value { option_copied result ≡ slice_get (table_of self.now) y }
        ensures none { IsNone result ↔ (self.now.geometry.height ≤ y) }
        ensures wide { IfSome result (λ row. length row.now ≡ self.now.geometry.width) }
    {
        if y >= self.geometry.height() {
            return None;
        }
        Some(self.visible_row(y))
    }

    /// Returns the visible pixels of row `y`. The row number `y` must be less than [`height`](Self::height).
    ///
    /// Not part of `v_frame` 0.7.0. Use [`row`](Self::row) if `y` may be out of range.
    #[tactic(auto, using(v_frame_raster::proofs::tables::Places::shown_slice))]
    pub fn visible_row(&self, y: usize) -> &'a [T]
        requires { y < self.now.geometry.height }
        ensures value { slice_get (table_of self.now) y ≡ Some result.now }
        ensures wide { length result.now ≡ self.now.geometry.width }
    {
        let start = row_start(self.geometry, y);
        &self.buffer[start..start + self.geometry.width()]
    }

    /// Returns a double-ended iterator over the visible rows, from top to bottom. Each item is a slice of
    /// [`width`](Self::width) pixels.
    pub fn rows(&self) -> Rows<'a, T>
        ensures rows { result ≡ table_of self.now }
        ensures wide { All (λ row. length row ≡ self.now.geometry.width) result }
        ensures bound { length result < 2 ^ 63 }
        ensures runs { ShowsInOrder (deref {X = List T}) }
        ensures runs_back { ShowsInReverse (deref {X = List T}) }
    {
        Rows::new(self)
    }
}

impl<'a, T: Copy> PlaneRef<'a, T> {
    /// Returns the entry of the buffer at `data_origin + stride * y + x`, or `None` if this index is past the end of the
    /// buffer.
    ///
    /// For a visible pixel, this is the pixel in column `x` of row `y`. If `x` is at least the visible width, the entry belongs
    /// to the border, or to the next row if there is no border.
    pub fn pixel(&self, x: usize, y: usize) -> Option<T>
        ensures value { result ≡ slice_get self.now.buffer (place_of self.now.geometry x y) }
        ensures none { IsNone result
            ↔ (alloc_size_of self.now.geometry ≤ place_of self.now.geometry x y) }
        ensures inside { x < self.now.geometry.width → y < self.now.geometry.height
            → result ≡ pixel_at (table_of self.now) x y }
    {
        // A loop over `x` checks the row only once, before its first pixel. Each pixel then costs one comparison.
        let start = row_in_buffer(self.geometry, y)?;
        self.entries_from(start).get(x).copied()
    }

    /// Returns the entries of the buffer from index `start` on. The index `start` must be at most the length of the buffer.
    fn entries_from(&self, start: usize) -> &'a [T]
        requires { start ≤ length self.now.buffer }
        ensures { result.now ≡ drop start self.now.buffer }
    {
        &self.buffer[start..]
    }

    /// Returns the visible pixel in column `x` of row `y`. `x` must be less than [`width`](Self::width), and `y` must be less
    /// than [`height`](Self::height).
    pub fn visible_pixel(&self, x: usize, y: usize) -> T
        requires wide { x < self.now.geometry.width }
        requires high { y < self.now.geometry.height }
        ensures { pixel_at (table_of self.now) x y ≡ Some result }
    {
        self.buffer[visible_place(self.geometry, x, y)]
    }

    /// Returns a double-ended iterator over the visible pixels, row by row from the top.
    pub fn pixels(&self) -> Pixels<'a, T>
        ensures pixels { result ≡ row_major (table_of self.now) }
        ensures count { length result ≡ self.now.geometry.width * self.now.geometry.height }
        ensures bound { length result < 2 ^ 63 }
        ensures runs { GivesInOrder T }
        ensures runs_back { GivesInReverse T }
    {
        Pixels::new(self)
    }
}

impl<'a, T: Pixel> PlaneRef<'a, T> {
    /// Returns a double-ended iterator over the bytes of the visible pixels, row by row from the top. Each pixel is encoded in
    /// little-endian order.
    pub fn byte_data(&self) -> ByteData<'a, T>
        ensures bytes { result ≡ byte_list T.form (table_of self.now) }
        ensures count { length result
            ≡ self.now.geometry.width * self.now.geometry.height * T.form.size }
        ensures bound { length result < 2 ^ 63 }
        ensures runs { GivesInOrder ℕ }
        ensures runs_back { GivesInReverse ℕ }
    {
        ByteData::new(self)
    }

    /// Writes the bytes of the visible pixels into `bytes`, row by row from the top. Each pixel is encoded in little-endian
    /// order.
    ///
    /// The length of `bytes` must be [`byte_len`](Self::byte_len).
    pub fn write_bytes(&self, bytes: &mut [u8])
        requires { length bytes.old ≡ length (byte_list T.form (table_of self.now)) }
        ensures { bytes.new ≡ byte_list T.form (table_of self.now) }
    {
        let _fits = self.byte_len();
        let row_bytes = T::BYTES * self.geometry.width();
        encode_rows(
            &self.as_rows_ref(),
            bytes,
            row_bytes,
            self.geometry.height(),
            row_bytes,
        );
    }

    /// Returns the number of bytes that [`byte_data`](Self::byte_data) yields: `width * height` times the size of a pixel in
    /// bytes. No pixel is read.
    pub fn byte_len(&self) -> usize
        ensures value { result
            ≡ self.now.geometry.width * self.now.geometry.height * T.form.size }
        ensures bytes { result ≡ length (byte_list T.form (table_of self.now)) }
        ensures table { let table = table_of self.now in
            result ≡ width_of table * height_of table * T.form.size }
        ensures bound { result < 2 ^ 63 }
    {
        visible_size(self.geometry) * T::BYTES
    }
}

impl<'a, T: fmt::Debug> fmt::Debug for PlaneRef<'a, T> {
    fn fmt<W: fmt::Write>(&self, f: &mut fmt::Formatter<W>) -> fmt::Result {
        f.debug_struct("PlaneRef")
            .field("data", &self.buffer)
            .field("geometry", &self.geometry)
            .finish()
    }
}

//! Borrowed rows that are stored elsewhere: a slice whose rows lie a stride apart.
ghost use Rattle.std.specs.Prelude.{All, ◌≡◌, ◌*◌, ◌^◌, ◌<◌, ◌≤◌, ◌↔◌, length, IsNone, IsTrue, IfSome, SomeIff, Some, slice_get, option_copied};
ghost use Rattle.v_frame_raster.specs.Table.{width_of, height_of, rectangle};
ghost use Rattle.v_frame_raster.specs.StridedRows.{strided_rows, RowsFit, IsInsideTable};

use std::marker::Model;

/// A borrowed picture that is stored elsewhere: rows of equal width in a slice. Row `y` begins at index `stride * y`.
///
/// It has fewer requirements than a [`PlaneRef`](crate::plane_ref::PlaneRef). The last row may end at its width, as it does in
/// a cropped decoder picture, and the slice may be longer than the rows. It has no border. Contracts see it as the table of its
/// rows. Not part of `v_frame` 0.7.0.
#[derive(Drop)]
pub struct RowsRef<'a, T> {
    buffer: &'a [T],
    width: usize,
    height: usize,
    stride: usize,
}

/// Returns whether `height` rows of `width` pixels, which lie `stride` entries apart, fit into `entries` entries. The rows must
/// neither be empty nor overlap.
///
/// The last row may end at its width. [`RowsRef::new`] requires this of its slice, and the calls that write rows require it of
/// their buffer. Not part of `v_frame` 0.7.0.
pub fn rows_fit(width: usize, height: usize, stride: usize, entries: usize) -> bool
    ensures { IsTrue result ↔ RowsFit width height stride entries }
{
    if width == 0 || height == 0 || stride < width {
        return false;
    }
    match stride.checked_mul(height - 1) {
        Some(last) => last <= entries && width <= entries - last,
        None => false,
    }
}

impl<'a, T> Model for RowsRef<'a, T> {
    ghost use Rattle.std.specs.Prelude.{length};
    ghost use Rattle.v_frame_raster.specs.Table.{Table};
    ghost use Rattle.v_frame_raster.specs.StridedRows.{strided_rows, RowsFit};

    ghost Value = { Table T };

    ghost view = { λ a. strided_rows a.width a.height a.stride a.buffer.now };

    ghost invariant = { λ a. RowsFit a.width a.height a.stride (length a.buffer.now) };
}

impl<'a, T> RowsRef<'a, T> {
    /// Returns the picture of `width` by `height` pixels whose row `y` begins at index `stride * y` of `buffer`.
    ///
    /// Returns `None` if `width` or `height` is zero, if `stride` is less than `width`, or if the last row would end past the
    /// end of `buffer`.
    pub fn new(buffer: &'a [T], width: usize, height: usize, stride: usize) -> Option<Self>
        ensures value { SomeIff result (RowsFit width height stride (length buffer.now))
            (strided_rows width height stride buffer.now) }
        ensures width { IfSome result (λ rows. width_of rows ≡ width) }
        ensures height { IfSome result (λ rows. height_of rows ≡ height) }
    {
        if !rows_fit(width, height, stride, buffer.len()) {
            return None;
        }
        Some(Self::of_parts(buffer, width, height, stride))
    }

    /// Returns the picture of these parts. The rows must fit into `buffer`.
    pub(crate) fn of_parts(buffer: &'a [T], width: usize, height: usize, stride: usize) -> Self
        requires { RowsFit width height stride (length buffer.now) }
        ensures value { result ≡ strided_rows width height stride buffer.now }
        ensures width { width_of result ≡ width }
        ensures height { height_of result ≡ height }
    {
        RowsRef {
            buffer,
            width,
            height,
            stride,
        }
    }

    /// Returns the width in pixels. It is never zero.
    pub fn width(&self) -> usize
        ensures value { result ≡ width_of self.now }
        ensures positive { 0 < result }
        ensures rows { All (λ row. length row ≡ result) self.now }
    {
        self.width
    }

    /// Returns the height in pixels. It is never zero.
    pub fn height(&self) -> usize
        ensures value { result ≡ height_of self.now }
        ensures positive { 0 < result }
        ensures countable { result * width_of self.now < 2 ^ 64 }
    {
        self.height
    }

    /// Returns the pixels of row `y`, or `None` if `y` is not less than [`height`](Self::height).
    pub fn row(&self, y: usize) -> Option<&'a [T]>
        ensures value { option_copied result ≡ slice_get self.now y }
        ensures none { IsNone result ↔ (height_of self.now ≤ y) }
        ensures wide { IfSome result (λ row. length row.now ≡ width_of self.now) }
    {
        if y >= self.height() {
            return None;
        }
        Some(self.visible_row(y))
    }

    /// Returns the pixels of row `y`. The row number `y` must be less than [`height`](Self::height).
    pub fn visible_row(&self, y: usize) -> &'a [T]
        requires { y < height_of self.now }
        ensures value { slice_get self.now y ≡ Some result.now }
        ensures wide { length result.now ≡ width_of self.now }
    {
        let start = self.stride * y;
        &self.buffer[start..start + self.width]
    }

    /// Returns the rectangle of `width` by `height` pixels that begins at column `x` of row `y`. It borrows rows of the same
    /// slice; nothing is copied.
    ///
    /// Returns `None` if the rectangle is empty or does not lie inside the picture.
    pub fn region(&self, x: usize, y: usize, width: usize, height: usize) -> Option<Self>
        ensures { SomeIff result (IsInsideTable self.now x y width height)
            (rectangle x y width height self.now) }
    {
        let (columns, rows) = (self.width(), self.height());
        let right = x.checked_add(width)?;
        let bottom = y.checked_add(height)?;
        if width == 0 || height == 0 || right > columns || bottom > rows {
            return None;
        }
        Some(self.visible_region(x, y, width, height))
    }

    /// Returns the rectangle of `width` by `height` pixels that begins at column `x` of row `y`, as [`region`](Self::region)
    /// does.
    ///
    /// The rectangle must not be empty, and must lie inside the picture: `x + width` may be at most [`width`](Self::width), and
    /// `y + height` at most [`height`](Self::height).
    pub fn visible_region(&self, x: usize, y: usize, width: usize, height: usize) -> Self
        requires { IsInsideTable self.now x y width height }
        ensures value { result ≡ rectangle x y width height self.now }
        ensures width { width_of result ≡ width }
        ensures height { height_of result ≡ height }
    {
        let (_, buffer) = self.buffer.split_at(self.stride * y + x);
        Self::of_parts(buffer, width, height, self.stride)
    }
}

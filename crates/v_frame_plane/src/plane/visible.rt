//! Mutable access to the visible pixels of a plane as rows of its buffer: to all of them, or to a rectangle.
ghost use Rattle.std.specs.Prelude.{◌≡◌, ◌+◌, ◌<◌, ℕ, length};
ghost use Rattle.v_frame_raster.specs.Geometry.{IsInside};
ghost use Rattle.v_frame_raster.specs.Raster.{table_of};
ghost use Rattle.v_frame_raster.specs.StridedRows.{strided_rows, RowsFit};
ghost use Rattle.v_frame_raster.specs.Table.{pixel_at};

use super::Plane;

/// Visible pixels of a plane for writing, as rows of its buffer. Row `y` begins at index `stride * y` of `entries`.
///
/// The slice `entries` ends where the buffer ends. It therefore contains the entries between the rows and after the last row
/// too; to keep them, write only the rows. For the values of these fields, [`rows_fit`](super::rows_fit) returns `true`. Not
/// part of `v_frame` 0.7.0.
#[derive(Drop)]
pub struct VisibleMut<'a, T> {
    /// The entries of the buffer, starting at the first of these pixels.
    pub entries: &'a mut [T],
    /// The number of pixels in a row.
    pub width: usize,
    /// The number of rows.
    pub height: usize,
    /// The number of entries from the start of one row to the start of the next.
    pub stride: usize,
}

impl<T> Plane<T> {
    ghost use Rattle.std.specs.Borrow.{sem};
    ghost use Rattle.v_frame_plane.specs.Lends.{LendsVisible, LendsVisibleFrom};
    ghost use Rattle.v_frame_plane.specs.Visible.{ShowsEachList, KeepsBorderOfEach, WritesEachRectangle};

    /// Returns all visible rows for writing. Pass the result to calls that write rows of a buffer.
    ///
    /// The automatic proof of a caller knows which pixels are written through the rows. Not part of `v_frame` 0.7.0.
    pub fn visible_mut(&mut self) -> VisibleMut<'_, T>
        ensures* writes_back { sem 𝓛 (LendsVisible T.row self.entry result.entries) }
        ensures width { result.width ≡ self.old.geometry.width }
        ensures height { result.height ≡ self.old.geometry.height }
        ensures fit { RowsFit result.width result.height result.stride (length result.entries.now) }
        ensures rows { strided_rows result.width result.height result.stride result.entries.now
            ≡ table_of self.old }
        ensures written { ShowsEachList self.old result.width result.height result.stride
            result.entries.now }
        ensures border { KeepsBorderOfEach self.old result.width result.height result.stride
            result.entries.now }
    {
        let geometry = self.geometry;
        let (width, height, stride) = (geometry.width(), geometry.height(), geometry.stride());
        let entries = self
            .buffer
            .part_mut(geometry.data_origin(), geometry.alloc_size());
        VisibleMut {
            entries,
            width,
            height,
            stride,
        }
    }

    /// Returns the rows of a rectangle of visible pixels for writing. The rectangle begins at column `x` of row `y`, and has
    /// `width` by `height` pixels.
    ///
    /// The rectangle must not be empty, and must lie inside the visible one: `x + width` may be at most [`width`](Self::width),
    /// and `y + height` at most [`height`](Self::height). The automatic proof of a caller knows which pixels are written
    /// through the rows. Not part of `v_frame` 0.7.0.
    pub fn visible_region_mut(
        &mut self,
        x: usize,
        y: usize,
        width: usize,
        height: usize,
    ) -> VisibleMut<'_, T>
        requires { IsInside self.old.geometry x y width height }
        ensures* writes_back { sem 𝓛 (LendsVisibleFrom T.row self.entry x y result.entries) }
        ensures width { result.width ≡ width }
        ensures height { result.height ≡ height }
        ensures fit { RowsFit width height result.stride (length result.entries.now) }
        ensures rows { (i j : ℕ) → i < width → j < height
            → pixel_at (strided_rows width height result.stride result.entries.now) i j
            ≡ pixel_at (table_of self.old) (x + i) (y + j) }
        ensures written { WritesEachRectangle self.old x y width height result.stride
            result.entries.now }
    {
        let region = self.geometry.visible_region(x, y, width, height);
        let stride = region.stride();
        let entries = self
            .buffer
            .part_mut(region.data_origin(), region.alloc_size());
        VisibleMut {
            entries,
            width: region.width(),
            height: region.height(),
            stride,
        }
    }
}

//! Copies into a plane, from pixels and from bytes.
//!
//! All copies share the loop of `encoding`. A copy of packed bytes is a copy with a stride, and its stride is the size of a
//! row.
ghost use Rattle.std.specs.Prelude.{◌≡◌, ◌*◌, ◌+◌, length, map, OnOk};
ghost use Rattle.v_frame_raster.specs.Pixel.{byte_list};
ghost use Rattle.v_frame_raster.specs.Table.{width_of, height_of, row_major};
ghost use Rattle.v_frame_raster.specs.Raster.{table_of};
ghost use Rattle.v_frame_plane.specs.Copy.{Copies, packed_copy, strided_copy, packed_byte_copy};
ghost use Rattle.v_frame_raster.specs.StridedRows.{piece_fronts};

use super::{CopyError, Plane, VisibleMut};
use crate::encoding::{AsBytes, AsPixels, write_rows};
use crate::place::visible_size;
use crate::rows_ref::RowsRef;
use v_frame_raster::pixel::Pixel;

impl<T: Pixel> Plane<T> {
    /// Replaces the visible pixels with those of `src`, which holds the rows from top to bottom without gaps. The border is
    /// unchanged.
    ///
    /// Ports `Plane::copy_from_slice` of `v_frame` 0.7.0.
    ///
    /// # Errors
    ///
    /// [`CopyError::DataLength`] if the length of `src` is not `width * height` pixels. The plane is then unchanged.
    pub fn copy_from_slice(&mut self, src: &[T]) -> Result<(), CopyError>
        ensures copied { Copies self.old self.new result
            (packed_copy (table_of self.old) src.now) }
        ensures source { OnOk result (row_major (table_of self.new) ≡ src.now) }
    {
        let geometry = self.geometry;
        let expected = visible_size(geometry);
        if src.len() != expected {
            return Err(CopyError::DataLength {
                expected,
                found: src.len(),
            });
        }
        let source = RowsRef::of_parts(src, geometry.width(), geometry.height(), geometry.width());
        let VisibleMut {
            entries,
            width,
            height,
            stride,
        } = self.visible_mut();
        write_rows::<T, AsPixels>(&source, entries, width, height, stride);
        Ok(())
    }

    /// Replaces the visible pixels with those encoded in `src`, which holds the rows from top to bottom without gaps. Each
    /// pixel is encoded in little-endian order. The border is unchanged.
    ///
    /// Ports `Plane::copy_from_u8_slice` of `v_frame` 0.7.0.
    ///
    /// # Errors
    ///
    /// [`CopyError::DataLength`] if the length of `src` is not [`BYTES`](Pixel::BYTES) times the number of visible pixels. The
    /// plane is then unchanged.
    pub fn copy_from_u8_slice(&mut self, src: &[u8]) -> Result<(), CopyError>
        ensures copied { Copies self.old self.new result
            (packed_byte_copy T.form (table_of self.old) src.now) }
        ensures source { OnOk result (byte_list T.form (table_of self.new) ≡ src.now) }
    {
        let stride = self.geometry.width() * T::BYTES;
        self.copy_from_u8_slice_with_stride(src, stride)
    }

    /// Replaces the visible pixels with those encoded in `src`, whose rows lie `stride` bytes apart: row `y` begins at index
    /// `stride * y`. Each pixel is encoded in little-endian order. The bytes between the end of a row and the start of the next
    /// row are not read. The border is unchanged.
    ///
    /// Ports `Plane::copy_from_u8_slice_with_stride` of `v_frame` 0.7.0.
    ///
    /// # Errors
    ///
    /// - [`CopyError::InvalidStride`] if `stride` is less than the size of a visible row in bytes.
    /// - Otherwise [`CopyError::DataLength`] if the length of `src` is not `stride * height` bytes. The last row needs a whole
    ///   stride too. The error's `expected` is `usize::MAX` if `stride * height` does not fit into a `usize`.
    ///
    /// The plane is unchanged after an error.
    pub fn copy_from_u8_slice_with_stride(
        &mut self,
        src: &[u8],
        stride: usize,
    ) -> Result<(), CopyError>
        ensures copied { Copies self.old self.new result
            (strided_copy T.form (table_of self.old) src.now stride) }
        ensures source { let table = table_of self.old in
            OnOk result (byte_list T.form (table_of self.new) ≡ row_major
            (piece_fronts (width_of table * T.form.size) stride (height_of table) src.now)) }
    {
        let geometry = self.geometry;
        let width = geometry.width();
        if stride < width * T::BYTES {
            return Err(CopyError::InvalidStride { stride, width });
        }
        let expected = stride.checked_mul(geometry.height());
        if expected != Some(src.len()) {
            return Err(CopyError::DataLength {
                expected: expected.unwrap_or(usize::MAX),
                found: src.len(),
            });
        }
        let source = RowsRef::of_parts(src, width * T::BYTES, geometry.height(), stride);
        let VisibleMut {
            entries,
            width,
            height,
            stride,
        } = self.visible_mut();
        write_rows::<T, AsBytes>(&source, entries, width, height, stride);
        Ok(())
    }
}

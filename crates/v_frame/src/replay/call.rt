//! The calls on visible pixels, as values.
ghost use Rattle.std.specs.Prelude.{◌≡◌};

use super::draw::{PixelDraw, RowDraw, Side};
use crate::sequence::Sequence;

/// One call on one plane of a frame, as a value.
///
/// Planes have the indices 0 for Y, 1 for U and 2 for V. Not part of `v_frame` 0.7.0.
#[derive(Debug, PartialEq, Eq, Drop)]
pub enum VisibleCall<T> {
    /// Calls [`Plane::width`](crate::plane::Plane::width).
    Width {
        /// The index of the plane.
        plane: usize,
    },
    /// Calls [`Plane::height`](crate::plane::Plane::height).
    Height {
        /// The index of the plane.
        plane: usize,
    },
    /// Calls [`Plane::row`](crate::plane::Plane::row).
    Row {
        /// The index of the plane.
        plane: usize,
        /// The row, counted from the top.
        y: usize,
    },
    /// Calls [`Plane::row_mut`](crate::plane::Plane::row_mut), and writes into the row. The result is the row before the write.
    RowMut {
        /// The index of the plane.
        plane: usize,
        /// The row, counted from the top.
        y: usize,
        /// The new pixels of the row, from the left. A pixel is unchanged if its entry is `None`, or if the list ends before
        /// it. Entries past the width are ignored.
        writes: Sequence<Option<T>>,
    },
    /// Calls [`Plane::pixel`](crate::plane::Plane::pixel), but only inside the visible rectangle.
    Pixel {
        /// The index of the plane.
        plane: usize,
        /// The column, counted from the left.
        x: usize,
        /// The row, counted from the top.
        y: usize,
    },
    /// Calls [`Plane::pixel_mut`](crate::plane::Plane::pixel_mut) inside the visible rectangle only, and replaces the pixel.
    /// The result is the pixel before the write.
    PixelMut {
        /// The index of the plane.
        plane: usize,
        /// The column, counted from the left.
        x: usize,
        /// The row, counted from the top.
        y: usize,
        /// The new pixel.
        value: T,
    },
    /// Calls [`Plane::copy_from_slice`](crate::plane::Plane::copy_from_slice).
    CopyFromSlice {
        /// The index of the plane.
        plane: usize,
        /// The pixels to copy, row by row from the top.
        source: Sequence<T>,
    },
    /// Calls [`Plane::copy_from_u8_slice`](crate::plane::Plane::copy_from_u8_slice).
    CopyFromU8Slice {
        /// The index of the plane.
        plane: usize,
        /// The bytes to copy, row by row from the top. Each pixel is encoded in little-endian order.
        source: Sequence<u8>,
    },
    /// Calls [`Plane::copy_from_u8_slice_with_stride`](crate::plane::Plane::copy_from_u8_slice_with_stride).
    CopyFromU8SliceWithStride {
        /// The index of the plane.
        plane: usize,
        /// The bytes to copy, row by row from the top, including the bytes between the rows.
        source: Sequence<u8>,
        /// The number of bytes from the start of one row of the source to the start of the next.
        stride: usize,
    },
    /// Calls [`Plane::rows`](crate::plane::Plane::rows), and takes an item from each of these sides in turn.
    Rows {
        /// The index of the plane.
        plane: usize,
        /// The sides. An item past the end of the iterator is `None`.
        draws: Sequence<Side>,
    },
    /// Calls [`Plane::pixels`](crate::plane::Plane::pixels), and takes an item from each of these sides in turn.
    Pixels {
        /// The index of the plane.
        plane: usize,
        /// The sides. An item past the end of the iterator is `None`.
        draws: Sequence<Side>,
    },
    /// Calls [`Plane::byte_data`](crate::plane::Plane::byte_data), and takes an item from each of these sides in turn.
    ByteData {
        /// The index of the plane.
        plane: usize,
        /// The sides. An item past the end of the iterator is `None`.
        draws: Sequence<Side>,
    },
    /// Calls [`Plane::rows_mut`](crate::plane::Plane::rows_mut), takes a row from each of these sides in turn, and writes into
    /// it. The result has each row before the writes.
    RowsMut {
        /// The index of the plane.
        plane: usize,
        /// The sides, and the new pixels of each row. Past the end of the iterator the item is `None`, and nothing is written.
        draws: Sequence<RowDraw<T>>,
    },
    /// Calls [`Plane::pixels_mut`](crate::plane::Plane::pixels_mut), takes a pixel from each of these sides in turn, and
    /// replaces it. The result has each pixel before the writes.
    PixelsMut {
        /// The index of the plane.
        plane: usize,
        /// The sides, and the new value of each pixel. Past the end of the iterator the item is `None`, and nothing is written.
        draws: Sequence<PixelDraw<T>>,
    },
}

impl<T> VisibleCall<T> {
    ghost use Rattle.v_frame.specs.Replay.{named_plane};

    /// Returns the index of the plane that the call names.
    pub(crate) fn plane(&self) -> usize
        ensures { result ≡ named_plane self.now }
    {
        match self {
            VisibleCall::Width { plane }
            | VisibleCall::Height { plane }
            | VisibleCall::Row { plane, .. }
            | VisibleCall::RowMut { plane, .. }
            | VisibleCall::Pixel { plane, .. }
            | VisibleCall::PixelMut { plane, .. }
            | VisibleCall::CopyFromSlice { plane, .. }
            | VisibleCall::CopyFromU8Slice { plane, .. }
            | VisibleCall::CopyFromU8SliceWithStride { plane, .. }
            | VisibleCall::Rows { plane, .. }
            | VisibleCall::Pixels { plane, .. }
            | VisibleCall::ByteData { plane, .. }
            | VisibleCall::RowsMut { plane, .. }
            | VisibleCall::PixelsMut { plane, .. } => *plane,
        }
    }
}

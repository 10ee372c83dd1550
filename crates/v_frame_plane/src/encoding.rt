//! The loop that all copies share: it writes each row of a buffer from a row of a source.
ghost use Rattle.std.specs.Prelude.{◌≡◌, ℕ, ◌*◌, ◌≤◌, List, length, map};
ghost use Rattle.v_frame_raster.specs.Table.{width_of, height_of};
ghost use Rattle.v_frame_raster.specs.StridedRows.{strided_rows, KeepsRest, RowsFit};
ghost use Rattle.v_frame_raster.specs.Pixel.{pixels_of_bytes};

use crate::rows_ref::RowsRef;
use v_frame_raster::pixel::Pixel;

/// The form in which a source holds a row of pixels.
pub trait Encoding<T> {
    /// The type of the entries of a source.
    type Entry;

    // The pixels of a row, computed from the number of pixels and from the entries that encode them.
    ghost row_of: { ℕ → List Self.Entry → List T };

    ghost ENTRIES: { ℕ };

    /// The number of entries that encode one pixel.
    const ENTRIES: usize;

    /// Overwrites `row` with the pixels that `entries` encode.
    fn write_row(row: &mut [T], entries: &[Self::Entry])
        requires { length entries.now ≡ ENTRIES * length row.old }
        ensures { row.new ≡ row_of (length row.old) entries.now };
}

/// A source whose entries are pixels.
pub struct AsPixels;

impl<T: Copy> Encoding<T> for AsPixels {
    type Entry = T;

    ghost row_of = { λ count entries. entries };

    ghost ENTRIES = { 1 };

    const ENTRIES: usize = 1;

    fn write_row(row: &mut [T], entries: &[T]) {
        row.copy_from_slice(entries);
    }
}

/// A source whose entries are bytes. Each pixel is encoded in little-endian order.
pub struct AsBytes;

impl<T: Pixel> Encoding<T> for AsBytes {
    type Entry = u8;

    ghost row_of = { pixels_of_bytes T.form };

    ghost ENTRIES = { T.form.size };

    const ENTRIES: usize = T::BYTES;

    fn write_row(row: &mut [T], entries: &[u8]) {
        T::decode_row(row, entries);
    }
}

/// Writes each row of `buffer` from the row of `source` with the same number. Entries outside the rows are unchanged.
#[tactic(auto, using(v_frame_raster::proofs::tables::StridedWrites::row_ends))]
pub fn write_rows<T, E: Encoding<T>>(
    source: &RowsRef<'_, E::Entry>,
    buffer: &mut [T],
    width: usize,
    height: usize,
    stride: usize,
)
    requires fit { RowsFit width height stride (length buffer.old) }
    requires wide { width_of source.now ≡ width * E.ENTRIES }
    requires high { height_of source.now ≡ height }
    ensures table { strided_rows width height stride buffer.new
        ≡ map (E.row_of width) source.now }
    ensures rest { KeepsRest width height stride buffer.old buffer.new }
{
    for y in 0..height {
        let start = stride * y;
        E::write_row(&mut buffer[start..start + width], source.visible_row(y));
    }
}

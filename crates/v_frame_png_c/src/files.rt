//! Pictures as the bytes of PNG files, and their copies in a buffer of C.
ghost use Rattle.std.specs.Prelude.{map, IfOk};
ghost use Rattle.v_frame_png.specs.Prelude.{big_endian, IsFile};
ghost use Rattle.v_frame_png_c.specs.Written.{IsPutInFront};

use crate::memory::Memory;
use crate::status::{OK, SHORT_BUFFER};
use std::alloc::Global;
use v_frame::plane::RowsRef;
use v_frame_png::{Compression, Header, PngError, PngWriter, write_png_with};

/// Returns the bytes of a PNG file with samples of one byte.
///
/// # Errors
///
/// A [`PngError`] if there is not enough memory, or if the rows do not fit the header.
pub fn file_of_bytes(
    alloc: Global,
    header: Header,
    compression: Compression,
    rows: &RowsRef<'_, u8>,
) -> Result<Vec<u8>, PngError>
    ensures { IfOk result (λ file. IsFile header rows.now file.items) }
{
    let file = write_png_with(alloc, Memory::new(alloc), header, compression, rows)?;
    Ok(file.into_bytes())
}

/// Returns the bytes of a PNG file with samples of two bytes.
///
/// # Errors
///
/// A [`PngError`] if there is not enough memory, or if the rows do not fit the header.
pub fn file_of_words(
    alloc: Global,
    header: Header,
    compression: Compression,
    rows: &RowsRef<'_, u16>,
) -> Result<Vec<u8>, PngError>
    ensures { IfOk result (λ file. IsFile header (map big_endian rows.now) file.items) }
{
    let mut png = PngWriter::with_compression(alloc, Memory::new(alloc), header, compression)?;
    png.write_rows_u16(alloc, rows)?;
    png.finish()?;
    Ok(png.into_inner().into_bytes())
}

/// Copies a file to the beginning of a buffer, and sets `needed` to the length of the file in bytes. If the buffer is shorter,
/// nothing is copied. Returns the status.
pub fn put_in_front(file: &[u8], buffer: &mut [u8], needed: &mut usize) -> u32
    ensures put { IsPutInFront file.now buffer.old buffer.new needed.new result }
{
    *needed = file.len();
    if file.len() > buffer.len() {
        return SHORT_BUFFER;
    }
    buffer[..file.len()].copy_from_slice(file);
    OK
}

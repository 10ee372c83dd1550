//! Planes as bytes for files and sockets: the visible pixels are written, or read from bytes with a stride.
ghost use Rattle.std.specs.Prelude.{◌≡◌, ◌++◌, ◌*◌, OnOk, OnErr, IfOk, length};
ghost use Rattle.v_frame.specs.Prelude.{Copies, byte_list, height_of, packed_byte_copy, piece_fronts, row_major, strided_copy, table_of, width_of};

use std::alloc::{AllocError, Global};
use v_frame::pixel::Pixel;
use v_frame::plane::{CopyError, Plane};

/// Appends the bytes of the visible pixels, row by row from the top, each pixel in little-endian order. If the memory for all
/// of them cannot be allocated, nothing is appended.
pub fn append_bytes<T: Pixel>(plane: &Plane<T>, out: &mut Vec<u8>) -> Result<(), AllocError>
    ensures ok { OnOk result (out.new.items
        ≡ out.old.items ++ byte_list T.form (table_of plane.now)) }
    ensures err { OnErr result (out.new.items ≡ out.old.items) }
{
    let bytes = plane.byte_data();
    out.reserve(bytes.len())?;
    for byte in bytes {
        out.push(byte).unwrap();
    }
    Ok(())
}

/// Returns the number of bytes that [`append_bytes`] appends: the number of visible pixels times the size of a pixel in bytes.
pub fn count_of_bytes<T: Pixel>(plane: &Plane<T>) -> usize
    ensures count { result
        ≡ plane.now.geometry.width * plane.now.geometry.height * T.form.size }
    ensures bytes { result ≡ length (byte_list T.form (table_of plane.now)) }
{
    plane.byte_len()
}

/// Fills the visible rectangle from packed bytes, and appends the bytes of its pixels. After a successful copy, these are the
/// bytes of the source.
///
/// The outer error means that memory could not be allocated. The plane may already be filled then.
pub fn through_a_plane<T: Pixel>(
    plane: &mut Plane<T>,
    source: &[u8],
    out: &mut Vec<u8>,
) -> Result<Result<(), CopyError>, AllocError>
    ensures copied { IfOk result (λ copied. Copies plane.old plane.new copied
        (packed_byte_copy T.form (table_of plane.old) source.now)) }
    ensures bytes { IfOk result (λ copied.
        OnOk copied (out.new.items ≡ out.old.items ++ source.now)) }
{
    let copied = plane.copy_from_u8_slice(source);
    if copied.is_ok() {
        append_bytes(plane, out)?;
    }
    Ok(copied)
}

/// Fills the visible rectangle from bytes with a stride, and appends the bytes of its pixels. After a successful copy, these
/// are the rows of the source without the bytes between them.
///
/// The outer error means that memory could not be allocated. The plane may already be filled then.
pub fn without_tails<T: Pixel>(
    plane: &mut Plane<T>,
    source: &[u8],
    stride: usize,
    out: &mut Vec<u8>,
) -> Result<Result<(), CopyError>, AllocError>
    ensures copied { IfOk result (λ copied. Copies plane.old plane.new copied
        (strided_copy T.form (table_of plane.old) source.now stride)) }
    ensures bytes { let table = table_of plane.old in IfOk result (λ copied.
        OnOk copied (out.new.items ≡ out.old.items ++ row_major
        (piece_fronts (width_of table * T.form.size) stride (height_of table) source.now))) }
{
    let copied = plane.copy_from_u8_slice_with_stride(source, stride);
    if copied.is_ok() {
        append_bytes(plane, out)?;
    }
    Ok(copied)
}

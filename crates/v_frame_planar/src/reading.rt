//! Reads frames from their planar bytes.
ghost use Rattle.std.specs.Prelude.{◌≡◌, ◌≢◌, ◌<◌, ◌≤◌, ◌⊎◌, false, length, min, take, option_map, Err, IfOk, IfErr, MatchBool, MatchResult, OnOk, OnErr};
ghost use Rattle.std.specs.Io.KnownBytes.{Consumes, IsAtEnd};
ghost use Rattle.v_frame.specs.Prelude.{isize_max, usize_max, KeepsBorders, table_of, tables_of};
ghost use Rattle.v_frame_planar.specs.Planar.{byte_count, bytes_of_plane, plane_byte_count, planar_bytes, size_of, sizes_of, MayStopReading, Reads, TellsCause};
ghost use Rattle.v_frame_planar.specs.Shown.{FillsFrame};

use crate::counted::Counted;
use crate::error::PlanarError;
use crate::showing::show_planar_bytes;
use std::alloc::Global;
use std::io;
use v_frame::frame::Frame;
use v_frame::pixel::Pixel;
use v_frame::plane::Plane;

/// Reads the planar bytes of the next frame into `frame`. Returns `false` if the reader was at its end.
///
/// The sizes of the planes of `frame` determine how many bytes are read. Nothing after them is consumed. The padding of `frame`
/// is unchanged. The call allocates a buffer for all bytes of the frame before it reads the first one, and changes `frame` only
/// after it has read the last one.
///
/// # Errors
///
/// - [`PlanarError::TooLarge`] if the frame has more than `isize::MAX` bytes. Nothing was read then.
/// - [`PlanarError::OutOfMemory`] if the allocation fails. Nothing was read then.
/// - [`PlanarError::Read`] if a read fails. An interrupted read counts as failed and is not retried. [`Counted::last_failure`]
///   returns the cause.
/// - [`PlanarError::Truncated`] if the reader reaches its end inside the frame.
///
/// After an error, `frame` is unchanged. After the last two, the bytes read so far are lost, so the next call would begin
/// inside the frame.
pub fn read_frame<T: Pixel, R: io::Read>(
    alloc: Global,
    reader: &mut Counted<R>,
    frame: &mut Frame<T>,
) -> Result<bool, PlanarError>
    ensures read { IfOk result (Reads R.remaining reader.old reader.new
        (planar_bytes T.form (tables_of frame.new))) }
    ensures uncounted { OnOk result (reader.new.failures ≡ reader.old.failures) }
    ensures at_end { IfOk result (λ more. more ≡ false → frame.new ≡ frame.old) }
    ensures borders { KeepsBorders frame.old frame.new }
    ensures sizes { sizes_of (tables_of frame.new) ≡ sizes_of (tables_of frame.old) }
    ensures as_many { length (planar_bytes T.form (tables_of frame.new))
        ≡ length (planar_bytes T.form (tables_of frame.old)) }
    ensures too_large { isize_max < length (planar_bytes T.form (tables_of frame.old))
        → result ≡ Err PlanarError.TooLarge }
    ensures error { IfErr result (MayStopReading R.remaining reader.old reader.new
        (length (planar_bytes T.form (tables_of frame.old)))) }
    ensures cause { MatchResult result
        (λ _. reader.new.last_failure ≡ reader.old.last_failure)
        (TellsCause reader.old.last_failure reader.new.last_failure) }
    ensures unread { OnErr result (frame.new ≡ frame.old) }
{
    let mut bytes = allocate(alloc, frame)?;
    let found = read_until_full(reader, bytes.as_mut_slice())?;
    store_whole_frame(frame, bytes.as_slice(), found)
}

/// Stores the bytes of a frame in `frame`, if all of them were read. `found` is the number of bytes read. Returns `false` if it
/// is 0.
fn store_whole_frame<T: Pixel>(
    frame: &mut Frame<T>,
    bytes: &[u8],
    found: usize,
) -> Result<bool, PlanarError>
    requires counted { length bytes.now ≡ length (planar_bytes T.form (tables_of frame.old)) }
    requires fills { FillsFrame T.form frame.old bytes.now }
    ensures shown { IfOk result (λ more. MatchBool more
        ((found ≡ length bytes.now) × (planar_bytes T.form (tables_of frame.new) ≡ bytes.now))
        ((found ≡ 0) × (found ≢ length bytes.now) × (frame.new ≡ frame.old))) }
    ensures borders { KeepsBorders frame.old frame.new }
    ensures sizes { sizes_of (tables_of frame.new) ≡ sizes_of (tables_of frame.old) }
    ensures as_many { length (planar_bytes T.form (tables_of frame.new))
        ≡ length (planar_bytes T.form (tables_of frame.old)) }
    ensures truncated { IfErr result (λ error. (error ≡ PlanarError.Truncated (length bytes.now) found)
        × (found ≢ 0) × (found ≢ length bytes.now) × (frame.new ≡ frame.old)) }
{
    let expected = bytes.len();
    if found == expected {
        show_planar_bytes(frame, bytes);
        return Ok(true);
    }
    if found == 0 {
        return Ok(false);
    }
    Err(PlanarError::Truncated { expected, found })
}

/// Allocates a buffer for the planar bytes of a frame.
fn allocate<T: Pixel>(alloc: Global, frame: &Frame<T>) -> Result<Vec<u8>, PlanarError>
    ensures room { IfOk result (λ bytes.
        length bytes.items ≡ length (planar_bytes T.form (tables_of frame.now))) }
    ensures fills { IfOk result (λ bytes. FillsFrame T.form frame.now bytes.items) }
    ensures too_large { isize_max < length (planar_bytes T.form (tables_of frame.now))
        → result ≡ Err PlanarError.TooLarge }
    ensures error { let count = length (planar_bytes T.form (tables_of frame.now)) in
        IfErr result (λ error. ((error ≡ PlanarError.OutOfMemory) × (count ≤ isize_max))
        ⊎ ((error ≡ PlanarError.TooLarge) × (isize_max < count))) }
{
    let count = planar_len(frame);
    if count > isize::MAX as usize {
        return Err(PlanarError::TooLarge);
    }
    let mut bytes = Vec::new(alloc);
    bytes.resize(count, 0)?;
    Ok(bytes)
}

/// Returns the number of planar bytes of a frame, which is the number of bytes that [`read_frame`] reads and
/// [`write_frame`](crate::write_frame) writes. It saturates at `usize::MAX`.
pub fn planar_len<T: Pixel>(frame: &Frame<T>) -> usize
    ensures value { result ≡ min (length (planar_bytes T.form (tables_of frame.now))) usize_max }
    ensures sizes { result ≡ min (byte_count T.form.size (sizes_of (tables_of frame.now))) usize_max }
{
    let chroma = chroma_len(&frame.u_plane) + chroma_len(&frame.v_plane);
    frame.y_plane.byte_len().saturating_add(chroma)
}

/// Returns the number of bytes of a chroma plane, or 0 if it is absent.
pub(crate) fn chroma_len<T: Pixel>(plane: &Option<Plane<T>>) -> usize
    ensures value { result ≡ length (bytes_of_plane T.form (option_map table_of plane.now)) }
    ensures size { result
        ≡ plane_byte_count T.form.size (option_map size_of (option_map table_of plane.now)) }
    ensures bound { result ≤ isize_max }
{
    match plane {
        Some(plane) => plane.byte_len(),
        None => 0,
    }
}

/// Reads until `buf` is full or the reader is at its end, and returns the number of bytes read.
///
/// # Errors
///
/// [`PlanarError::Read`] if a read fails. An interrupted read counts as failed and is not retried. [`Counted::last_failure`]
/// returns the cause.
pub fn read_until_full<R: io::Read>(
    reader: &mut Counted<R>,
    buf: &mut [u8],
) -> Result<usize, PlanarError>
    ensures bound { IfOk result (λ found. found ≤ length buf.new) }
    ensures bytes { IfOk result (λ found. Consumes (R.remaining reader.old.inner)
        (R.remaining reader.new.inner) (take found buf.new)) }
    ensures at_end { IfOk result (λ found. found < length buf.new
        → IsAtEnd (R.remaining reader.new.inner)) }
    ensures uncounted { OnOk result (reader.new.failures ≡ reader.old.failures) }
    ensures failed { IfErr result (λ error. error ≡ PlanarError.Read) }
    ensures cause { MatchResult result
        (λ _. reader.new.last_failure ≡ reader.old.last_failure)
        (TellsCause reader.old.last_failure reader.new.last_failure) }
    ensures error { IfErr result (MayStopReading R.remaining reader.old reader.new
        (length buf.old)) }
    ensures size { length buf.new ≡ length buf.old }
{
    let mut found = 0;
    while found < buf.len() {
        match reader.read(&mut buf[found..]) {
            Ok(0) => return Ok(found),
            Ok(count) => found += count,
            Err(_) => return Err(PlanarError::Read),
        }
    }
    Ok(found)
}

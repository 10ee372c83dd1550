//! Reads frames from the bytes of a semi-planar layout.
ghost use Rattle.std.specs.Prelude.{◌≡◌, ◌<◌, ◌≤◌, [], false, length, Err, IfErr, IfOk, MatchOption, MatchResult, OnErr, OnOk};
ghost use Rattle.std.specs.Io.KnownBytes.{Consumes, IsAtEnd};
ghost use Rattle.v_frame.specs.Prelude.{isize_max, tables_of, KeepsBorders};
ghost use Rattle.v_frame_planar.specs.Planar.{sizes_of, MayStopReading, TellsCause};
ghost use Rattle.v_frame_semi_planar.specs.Format.{unused_bits, HasLayout};
ghost use Rattle.v_frame_semi_planar.specs.SemiPlanar.{semi_planar_bytes, semi_planar_pixels, shown_pixels, FillsLayout, MayFailReading, ReadsLayout, TellsFailure};

use crate::error::SemiPlanarError;
use crate::format::SemiPlanarFormat;
use crate::length::semi_planar_len;
use crate::storing::{store_chroma_planes, store_plane};
use std::alloc::Global;
use std::io;
use v_frame::frame::Frame;
use v_frame::pixel::Pixel;
use v_frame_planar::{Counted, PlanarError, read_until_full};

/// Reads the bytes of the next frame, which are in the layout `format`, into `frame`. Returns `false` if the reader was at its
/// end.
///
/// The sizes of the planes of `frame` determine how many bytes are read. Nothing after them is consumed. The padding of `frame`
/// is unchanged. The call allocates a buffer for all bytes of the frame before it reads the first one, and changes `frame` only
/// after it has read the last one. If the layout has its samples in the top bits of words, the bits below them are discarded.
///
/// # Errors
///
/// The errors of [`check_layout`](crate::check_layout), after which nothing was read. The other errors are in
/// [`SemiPlanarError::Planar`]:
///
/// - [`PlanarError::TooLarge`] if the frame has more than `isize::MAX` bytes. Nothing was read then.
/// - [`PlanarError::OutOfMemory`] if the allocation fails. Nothing was read then.
/// - [`PlanarError::Read`] if a read fails. An interrupted read counts as failed and is not retried. [`Counted::last_failure`]
///   returns the cause.
/// - [`PlanarError::Truncated`] if the reader reaches its end inside the frame.
///
/// After an error, `frame` is unchanged. After the last two, the bytes read so far are lost, so the next call would begin
/// inside the frame.
pub fn read_frame<T: Pixel, R: io::Read>(
    alloc: Global,
    reader: &mut Counted<R>,
    frame: &mut Frame<T>,
    format: SemiPlanarFormat,
) -> Result<bool, SemiPlanarError>
    ensures read { IfOk result (ReadsLayout T.form R.remaining reader.old reader.new format
        (tables_of frame.new)) }
    ensures layout { OnOk result (HasLayout T.form.size format frame.old) }
    ensures uncounted { OnOk result (reader.new.failures ≡ reader.old.failures) }
    ensures at_end { IfOk result (λ more. more ≡ false → frame.new ≡ frame.old) }
    ensures borders { KeepsBorders frame.old frame.new }
    ensures sizes { sizes_of (tables_of frame.new) ≡ sizes_of (tables_of frame.old) }
    ensures as_many { length (semi_planar_bytes T.form format (tables_of frame.new))
        ≡ length (semi_planar_bytes T.form format (tables_of frame.old)) }
    ensures too_large { HasLayout T.form.size format frame.old
        → isize_max < length (semi_planar_bytes T.form format (tables_of frame.old))
        → result ≡ Err (SemiPlanarError.Planar PlanarError.TooLarge) }
    ensures error { IfErr result (MayFailReading T.form R.remaining reader.old reader.new format
        frame.old) }
    ensures cause { MatchResult result
        (λ _. reader.new.last_failure ≡ reader.old.last_failure)
        (TellsFailure reader.old.last_failure reader.new.last_failure) }
    ensures unread { OnErr result (frame.new ≡ frame.old) }
{
    let count = semi_planar_len(frame, format)?;
    let Some(bytes) = read_bytes(alloc, reader, count)? else {
        return Ok(false);
    };
    show_semi_planar_bytes(frame, bytes.as_slice(), format);
    Ok(true)
}

/// Reads `count` bytes. Returns `None` if the reader was at its end.
fn read_bytes<R: io::Read>(
    alloc: Global,
    reader: &mut Counted<R>,
    count: usize,
) -> Result<Option<Vec<u8>>, PlanarError>
    ensures read { IfOk result (λ found. MatchOption found
        (Consumes (R.remaining reader.old.inner) (R.remaining reader.new.inner) []
        × IsAtEnd (R.remaining reader.new.inner))
        (λ bytes. Consumes (R.remaining reader.old.inner) (R.remaining reader.new.inner) bytes.items
        × (length bytes.items ≡ count))) }
    ensures uncounted { OnOk result (reader.new.failures ≡ reader.old.failures) }
    ensures few { OnOk result (count ≤ isize_max) }
    ensures too_large { isize_max < count → result ≡ Err PlanarError.TooLarge }
    ensures error { IfErr result (MayStopReading R.remaining reader.old reader.new count) }
    ensures cause { MatchResult result
        (λ _. reader.new.last_failure ≡ reader.old.last_failure)
        (TellsCause reader.old.last_failure reader.new.last_failure) }
{
    if count > isize::MAX as usize {
        return Err(PlanarError::TooLarge);
    }
    let mut bytes = Vec::new(alloc);
    bytes.resize(count, 0)?;
    let found = read_until_full(reader, bytes.as_mut_slice())?;
    if found == count {
        return Ok(Some(bytes));
    }
    if found == 0 {
        return Ok(None);
    }
    Err(PlanarError::Truncated {
        expected: count,
        found,
    })
}

/// Stores the bytes of a frame, which are in the layout `format`, in `frame`, as [`read_frame`] does with the bytes that it
/// reads.
///
/// The length of `bytes` must be that which [`semi_planar_len`] returns for the frame. That call also tests whether the frame
/// fits the layout. The padding of `frame` is unchanged.
pub fn show_semi_planar_bytes<T: Pixel>(
    frame: &mut Frame<T>,
    bytes: &[u8],
    format: SemiPlanarFormat,
)
    requires { FillsLayout T.form format frame.old bytes.now }
    ensures pixels { semi_planar_pixels format (tables_of frame.new)
        ≡ shown_pixels T.form (unused_bits format)
        (length (semi_planar_pixels format (tables_of frame.old))) bytes.now }
    ensures borders { KeepsBorders frame.old frame.new }
    ensures sizes { sizes_of (tables_of frame.new) ≡ sizes_of (tables_of frame.old) }
{
    let (luma, chroma) = bytes.split_at(frame.y_plane.byte_len());
    store_plane(&mut frame.y_plane, luma, format.unused_bits());
    store_chroma_planes(&mut frame.u_plane, &mut frame.v_plane, chroma, format);
}

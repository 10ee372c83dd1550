//! Writes frames in a semi-planar layout.
ghost use Rattle.std.specs.Prelude.{◌≡◌, ◌<◌, IfErr, MatchResult, OnOk};
ghost use Rattle.std.specs.Io.KnownBytes.{Appends};
ghost use Rattle.v_frame.specs.Prelude.{tables_of};
ghost use Rattle.v_frame_planar.specs.Planar.{MayStopWriting, TellsCause};
ghost use Rattle.v_frame_semi_planar.specs.Format.{HasLayout};
ghost use Rattle.v_frame_semi_planar.specs.Pending.{pixels_pending};
ghost use Rattle.v_frame_semi_planar.specs.SemiPlanar.{semi_planar_bytes, stored_bytes, MayFailWriting, TellsFailure};

use crate::error::SemiPlanarError;
use crate::format::SemiPlanarFormat;
use crate::length::chroma_planes;
use crate::pending::Pending;
use std::io;
use v_frame::frame::Frame;
use v_frame::pixel::Pixel;
use v_frame_planar::{Counted, PlanarError};

/// The number of bytes that are encoded and written at once.
const BLOCK: usize = 16384;

/// Writes the bytes of `frame` in the layout `format`: the rows of luma, followed by rows in which the samples of both chroma
/// planes are interleaved. This is the layout of the pixel format of ffmpeg with the same name. No memory is allocated.
///
/// If the layout has its samples in the top bits of words, bits of a sample above the bit depth are lost.
///
/// # Errors
///
/// The errors of [`check_layout`](crate::check_layout), after which nothing was written. The other errors are in
/// [`SemiPlanarError::Planar`], and part of the frame may have been written:
///
/// - [`PlanarError::Write`] if a write fails. An interrupted write counts as failed and is not retried.
///   [`Counted::last_failure`] returns the cause.
/// - [`PlanarError::WriteZero`] if a write accepts none of the bytes.
pub fn write_frame<T: Pixel, W: io::Write>(
    writer: &mut Counted<W>,
    frame: &Frame<T>,
    format: SemiPlanarFormat,
) -> Result<(), SemiPlanarError>
    ensures ok { OnOk result (Appends (W.contents writer.old.inner)
        (W.contents writer.new.inner) (semi_planar_bytes T.form format (tables_of frame.now))) }
    ensures layout { OnOk result (HasLayout T.form.size format frame.now) }
    ensures uncounted { OnOk result (writer.new.failures ≡ writer.old.failures) }
    ensures error { IfErr result (MayFailWriting T.form W.contents writer.old writer.new format
        frame.now) }
    ensures cause { MatchResult result
        (λ _. writer.new.last_failure ≡ writer.old.last_failure)
        (TellsFailure writer.old.last_failure writer.new.last_failure) }
{
    let (first, second) = chroma_planes(frame, format)?;
    let pending = Pending::new(&frame.y_plane, first, second);
    write_pending(writer, pending, format.unused_bits())?;
    Ok(())
}

/// Writes the bytes of all samples that are left, block by block.
fn write_pending<T: Pixel, W: io::Write>(
    writer: &mut Counted<W>,
    mut pending: Pending<'_, T>,
    unused: u32,
) -> Result<(), PlanarError>
    requires { unused < 8 }
    ensures ok { OnOk result (Appends (W.contents writer.old.inner) (W.contents writer.new.inner)
        (stored_bytes T.form unused (pixels_pending pending.entry))) }
    ensures uncounted { OnOk result (writer.new.failures ≡ writer.old.failures) }
    ensures error { IfErr result (MayStopWriting W.contents writer.old writer.new
        (stored_bytes T.form unused (pixels_pending pending.entry))) }
    ensures cause { MatchResult result
        (λ _. writer.new.last_failure ≡ writer.old.last_failure)
        (TellsCause writer.old.last_failure writer.new.last_failure) }
{
    let mut block = [0; BLOCK];
    loop {
        let filled = pending.fill(&mut block, unused);
        if filled == 0 {
            return Ok(());
        }
        writer.write_all(&block[..filled])?;
    }
}

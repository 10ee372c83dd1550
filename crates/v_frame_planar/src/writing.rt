//! Writes frames as their planar bytes.
ghost use Rattle.std.specs.Prelude.{◌≡◌, IfErr, MatchResult, OnOk};
ghost use Rattle.std.specs.Io.KnownBytes.{Appends};
ghost use Rattle.v_frame.specs.Prelude.{tables_of};
ghost use Rattle.v_frame_planar.specs.Planar.{planar_bytes, MayStopWriting, TellsCause};

use crate::counted::Counted;
use crate::error::PlanarError;
use crate::pending::Pending;
use std::io;
use v_frame::frame::Frame;
use v_frame::pixel::Pixel;

/// The number of bytes that are encoded and written at once.
const BLOCK: usize = 16384;

/// Writes the planar bytes of `frame`. No memory is allocated.
///
/// # Errors
///
/// - [`PlanarError::Write`] if a write fails. An interrupted write counts as failed and is not retried.
///   [`Counted::last_failure`] returns the cause.
/// - [`PlanarError::WriteZero`] if a write accepts none of the bytes.
///
/// Part of the frame may have been written then.
pub fn write_frame<T: Pixel, W: io::Write>(
    writer: &mut Counted<W>,
    frame: &Frame<T>,
) -> Result<(), PlanarError>
    ensures ok { OnOk result (Appends (W.contents writer.old.inner)
        (W.contents writer.new.inner) (planar_bytes T.form (tables_of frame.now))) }
    ensures uncounted { OnOk result (writer.new.failures ≡ writer.old.failures) }
    ensures error { IfErr result (MayStopWriting W.contents writer.old writer.new
        (planar_bytes T.form (tables_of frame.now))) }
    ensures cause { MatchResult result
        (λ _. writer.new.last_failure ≡ writer.old.last_failure)
        (TellsCause writer.old.last_failure writer.new.last_failure) }
{
    let mut pending = Pending::new(frame);
    let mut block = [0; BLOCK];
    loop {
        let filled = pending.fill(&mut block);
        if filled == 0 {
            return Ok(());
        }
        writer.write_all(&block[..filled])?;
    }
}

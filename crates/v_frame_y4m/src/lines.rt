//! Reads lines of a stream byte by byte, so that nothing after a line is consumed.
ghost use Rattle.std.specs.Prelude.{◌≡◌, ◌≢◌, ◌≤◌, ◌++◌, ◌∷◌, [], length, take, All, IfOk, IfErr, IfSome, OnOk, MatchOption, MatchResult};
ghost use Rattle.std.specs.Io.KnownBytes.{Consumes, IsAtEnd};
ghost use Rattle.v_frame_y4m.specs.Ascii.{line_feed};
ghost use Rattle.v_frame_y4m.specs.Streams.{MayStopInLine, StopsReadingByte, TellsStreamCause};

use crate::error::Y4mError;
use std::io;
use v_frame_planar::{Counted, PlanarError};

/// Reads a line into the front of the buffer `line` and returns its length without the line feed. The buffer is as long as the
/// longest line that is accepted. Returns `None` if the reader was at its end.
pub(crate) fn read_line<R: io::Read>(
    reader: &mut Counted<R>,
    line: &mut [u8],
) -> Result<Option<usize>, Y4mError>
    ensures bound { IfOk result (λ found. IfSome found (λ n. n ≤ length line.new)) }
    ensures read { IfOk result (λ found. MatchOption found
        (Consumes (R.remaining reader.old.inner) (R.remaining reader.new.inner) []
        × IsAtEnd (R.remaining reader.new.inner))
        (λ n. Consumes (R.remaining reader.old.inner) (R.remaining reader.new.inner)
        (take n line.new ++ line_feed ∷ []))) }
    ensures ended { IfOk result (λ found. IfSome found (λ n. All (λ byte. byte ≢ line_feed) (take n line.new))) }
    ensures uncounted { OnOk result (reader.new.failures ≡ reader.old.failures) }
    ensures error { IfErr result (MayStopInLine R.remaining reader.old reader.new (length line.old)) }
    ensures cause { MatchResult result (λ _. reader.new.last_failure ≡ reader.old.last_failure)
        (TellsStreamCause reader.old.last_failure reader.new.last_failure) }
    ensures size { length line.new ≡ length line.old }
{
    let mut at = 0;
    loop {
        match read_byte(reader)? {
            None if at == 0 => return Ok(None),
            None => return Err(Y4mError::UnfinishedLine),
            Some(b'\n') => return Ok(Some(at)),
            Some(_) if at == line.len() => return Err(Y4mError::LineTooLong),
            Some(byte) => line[at] = byte,
        }
        at += 1;
    }
}

/// Reads one byte. Returns `None` if the reader is at its end.
fn read_byte<R: io::Read>(reader: &mut Counted<R>) -> Result<Option<u8>, Y4mError>
    ensures read { IfOk result (λ found. MatchOption found
        (Consumes (R.remaining reader.old.inner) (R.remaining reader.new.inner) []
        × IsAtEnd (R.remaining reader.new.inner))
        (λ byte. Consumes (R.remaining reader.old.inner) (R.remaining reader.new.inner) (byte ∷ []))) }
    ensures uncounted { OnOk result (reader.new.failures ≡ reader.old.failures) }
    ensures error { IfErr result (StopsReadingByte R.remaining reader.old reader.new) }
    ensures cause { MatchResult result (λ _. reader.new.last_failure ≡ reader.old.last_failure)
        (TellsStreamCause reader.old.last_failure reader.new.last_failure) }
{
    let mut byte = [0];
    match reader.read(&mut byte) {
        Ok(0) => Ok(None),
        Ok(_) => Ok(Some(byte[0])),
        Err(_) => Err(Y4mError::Planar(PlanarError::Read)),
    }
}

//! Reads the frame that `--frame` requests.
ghost use Rattle.std.specs.Prelude.{◌≡◌, ◌+◌, IfErr, IfOk, OnOk, Some, unwrap_or};
ghost use Rattle.v_frame.specs.Prelude.{tables_of};
ghost use Rattle.v_frame_planar.specs.Planar.{sizes_of};
ghost use Rattle.v_frame_streams.specs.Prelude.{bytes_left, format_of, stream_of, unread_of, IsMadeFor, ReadsBehind};
ghost use Rattle.yuv_system.specs.Faults.{IsAtTheFrame, StopsBehind};

use crate::fault::Fault;
use std::io;
use v_frame::pixel::Pixel;
use v_frame_streams::{Picture, Place, Source};

/// Returns the number of frames before the frame `number`, which is 1 if it is not given.
///
/// # Errors
///
/// [`Fault::FrameZero`] if the number is 0.
pub fn frames_before(number: Option<u64>) -> Result<u64, Fault>
    ensures before { IfOk result (λ before. before + 1 ≡ unwrap_or number 1) }
    ensures zero { IfErr result (λ _. number ≡ Some 0) }
{
    match number.unwrap_or(1).checked_sub(1) {
        Some(before) => Ok(before),
        None => Err(Fault::FrameZero),
    }
}

/// Skips `before` frames of a stream, and reads the next one into a picture.
///
/// # Errors
///
/// [`Fault::NoFrame`] with `place` if the stream has no more than `before` frames, and [`Fault::Stream`] if a frame was not read.
pub fn read_behind<T: Pixel, R: io::Read>(
    source: &mut Source<R>,
    picture: &mut Picture<T>,
    before: u64,
    place: Place,
) -> Result<(), Fault>
    requires { IsMadeFor T.form source.old picture.old }
    ensures read { OnOk result (ReadsBehind T.form before (stream_of source.old)
        (bytes_left R.remaining source.old) (bytes_left R.remaining source.new)
        (tables_of picture.new.frame)) }
    ensures stopped { IfErr result (StopsBehind before (stream_of source.old) place
        (unread_of R.remaining source.old) (unread_of R.remaining source.new)
        source.old.frames source.new.frames) }
    ensures at { IfErr result (IsAtTheFrame source.new) }
    ensures same { stream_of source.new ≡ stream_of source.old }
    ensures sizes { sizes_of (tables_of picture.new.frame) ≡ sizes_of (tables_of picture.old.frame) }
    ensures format { format_of picture.new.frame ≡ format_of picture.old.frame }
{
    match picture.read_nth(source, before) {
        Ok(true) => Ok(()),
        Ok(false) => Err(Fault::NoFrame(place, source.frames())),
        Err(error) => Err(Fault::Stream(error)),
    }
}

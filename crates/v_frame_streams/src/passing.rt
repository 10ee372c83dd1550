//! Skips frames: their bytes are read, and no frame is built.
ghost use Rattle.std.specs.Prelude.{◌≡◌, ◌+◌, ◌-◌, ◌≤◌, ◌<◌, length, min, IfErr, IfOk, OnOk};
ghost use Rattle.v_frame_planar.specs.Planar.{ConsumesSome};
ghost use Rattle.v_frame_streams.specs.Errors.{StopsAtFrame, StopsFrame, StopsInside};
ghost use Rattle.v_frame_streams.specs.Stops.{IsAtNextFrame};
ghost use Rattle.v_frame_streams.specs.Sources.{bytes_left, stream_of, unread_of};
ghost use Rattle.v_frame_streams.specs.Streams.{frames_after, most_frames, CountsFrames, ReadsWhole};
ghost use Rattle.v_frame_streams.specs.Telling.{TellsUpTo};

use crate::error::StreamError;
use crate::progress::{Progress, show_one_more};
use crate::source::Source;
use crate::stream::BLOCK;
use std::io;

/// Reads and discards at most `most` frames, up to the end of the source. Returns the number of frames skipped. After each
/// frame, `progress` receives the number of frames skipped so far.
///
/// # Errors
///
/// [`Problem::Stream`](crate::Problem::Stream) if a frame cannot be read whole.
pub fn skip_frames<R: io::Read, P: Progress>(
    source: &mut Source<R>,
    most: u64,
    progress: &mut P,
) -> Result<u64, StreamError>
    ensures counted { IfOk result (CountsFrames (bytes_left R.remaining source.old)
        (bytes_left R.remaining source.new) source.old.container source.old.frame_len most) }
    ensures told { IfOk result (λ found. TellsUpTo P.shows found progress.old progress.new) }
    ensures frames { IfOk result (λ found. source.new.frames
        ≡ min (source.old.frames + found) most_frames) }
    ensures problem { IfErr result (λ error. StopsAtFrame source.old.container source.old.frame_len
        (unread_of R.remaining source.old) (unread_of R.remaining source.new) most
        source.old.frames source.new.frames error.problem) }
    ensures unfailed { OnOk result (source.new.reader.failures ≡ source.old.reader.failures) }
    ensures stopped { IfErr result (IsAtNextFrame source.new) }
    ensures same { stream_of source.new ≡ stream_of source.old }
{
    let mut block = [0; BLOCK];
    for count in 0..most {
        if !skip_frame(source, &mut block)? {
            return Ok(count);
        }
        show_one_more(progress, count);
    }
    Ok(most)
}

/// Skips the next frame, reading it block by block. Returns `false` if the source was at its end.
fn skip_frame<R: io::Read>(source: &mut Source<R>, block: &mut [u8]) -> Result<bool, StreamError>
    requires { 0 < length block.old }
    ensures read { IfOk result (ReadsWhole (bytes_left R.remaining source.old)
        (bytes_left R.remaining source.new) source.old.container source.old.frame_len) }
    ensures problem { IfErr result (λ error. StopsFrame source.old.container
        (unread_of R.remaining source.old) (unread_of R.remaining source.new) source.old.frame_len
        error.problem) }
    ensures unfailed { OnOk result (source.new.reader.failures ≡ source.old.reader.failures) }
    ensures stopped { IfErr result (IsAtNextFrame source.new) }
    ensures same { stream_of source.new ≡ stream_of source.old }
    ensures frames { IfOk result (λ more. source.new.frames ≡ frames_after source.old.frames more) }
    ensures uncounted { IfErr result (λ _. source.new.frames ≡ source.old.frames) }
    ensures size { length block.new ≡ length block.old }
{
    let front = block.len().min(source.frame_len());
    if !source.begin_frame(&mut block[..front])? {
        return Ok(false);
    }
    skip_rest(source, front, block)?;
    source.end_frame();
    Ok(true)
}

/// Skips the rest of a frame of which `before` bytes have already been read.
fn skip_rest<R: io::Read>(
    source: &mut Source<R>,
    before: usize,
    block: &mut [u8],
) -> Result<(), StreamError>
    requires some { 0 < length block.old }
    requires within { before ≤ source.old.frame_len }
    ensures read { OnOk result (ConsumesSome (bytes_left R.remaining source.old)
        (bytes_left R.remaining source.new) (source.old.frame_len - before)) }
    ensures problem { IfErr result (λ error. StopsInside before (unread_of R.remaining source.old)
        (unread_of R.remaining source.new) source.old.frame_len error.problem) }
    ensures unfailed { OnOk result (source.new.reader.failures ≡ source.old.reader.failures) }
    ensures stopped { IfErr result (IsAtNextFrame source.new) }
    ensures same { stream_of source.new ≡ stream_of source.old }
    ensures frames { source.new.frames ≡ source.old.frames }
    ensures size { length block.new ≡ length block.old }
{
    let (frame_len, size) = (source.frame_len(), block.len());
    let mut done = before;
    while done < frame_len {
        let count = size.min(frame_len - done);
        source.read_part(done, &mut block[..count])?;
        done += count;
    }
    Ok(())
}

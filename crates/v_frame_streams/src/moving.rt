//! Copies frames unchanged: their bytes go through a block, and no frame is built.
ghost use Rattle.std.specs.Prelude.{◌≡◌, ◌+◌, ◌-◌, ◌≤◌, ◌<◌, length, IfErr, IfOk, OnErr, OnOk};
ghost use Rattle.v_frame_streams.specs.Breaks.{counts_of, BreaksCopy};
ghost use Rattle.v_frame_streams.specs.Copies.{same_bytes, Carries, MovesNext, MovesSome};
ghost use Rattle.v_frame_streams.specs.Stops.{StopsCopy};
ghost use Rattle.v_frame_streams.specs.Sources.{bytes_left, stream_of};
ghost use Rattle.v_frame_streams.specs.Streams.{frames_after};
ghost use Rattle.v_frame_streams.specs.Telling.{TellsUpTo};

use crate::error::StreamError;
use crate::progress::{Progress, show_one_more};
use crate::sink::Sink;
use crate::source::Source;
use crate::stream::BLOCK;
use std::io;

/// Copies at most `most` frames unchanged, up to the end of the source. Returns the number of frames written.
pub(crate) fn move_frames<R: io::Read, W: io::Write, P: Progress>(
    source: &mut Source<R>,
    sink: &mut Sink<W>,
    most: u64,
    progress: &mut P,
) -> Result<u64, StreamError>
    ensures carried { IfOk result (Carries source.old.container source.old.frame_len
        (bytes_left R.remaining source.old) (bytes_left R.remaining source.new)
        (W.contents sink.old.writer.inner) (W.contents sink.new.writer.inner) sink.old.container
        same_bytes most) }
    ensures told { IfOk result (λ found. TellsUpTo P.shows found progress.old progress.new) }
    ensures stopped { IfErr result (StopsCopy source.new sink.new) }
    ensures broken { OnErr result (BreaksCopy source.old.container source.old.frame_len
        (bytes_left R.remaining source.old) 0 most (counts_of source.old sink.old)
        (counts_of source.new sink.new)) }
    ensures same { stream_of source.new ≡ stream_of source.old }
{
    let mut block = [0; BLOCK];
    for count in 0..most {
        if !move_frame(source, sink, &mut block)? {
            return Ok(count);
        }
        show_one_more(progress, count);
    }
    Ok(most)
}

/// Copies the next frame unchanged. Returns `false` if the source was at its end.
fn move_frame<R: io::Read, W: io::Write>(
    source: &mut Source<R>,
    sink: &mut Sink<W>,
    block: &mut [u8],
) -> Result<bool, StreamError>
    requires { 0 < length block.old }
    ensures moved { IfOk result (MovesNext source.old.container source.old.frame_len
        (bytes_left R.remaining source.old) (bytes_left R.remaining source.new)
        (W.contents sink.old.writer.inner) (W.contents sink.new.writer.inner) sink.old.container) }
    ensures stopped { IfErr result (StopsCopy source.new sink.new) }
    ensures same { stream_of source.new ≡ stream_of source.old }
    ensures container { sink.new.container ≡ sink.old.container }
    ensures counted { IfOk result (λ more. (source.new.frames ≡ frames_after source.old.frames more)
        × (sink.new.frames ≡ frames_after sink.old.frames more)) }
    ensures uncounted { OnErr result ((source.new.frames ≡ source.old.frames)
        × (sink.new.frames ≡ sink.old.frames)) }
    ensures size { length block.new ≡ length block.old }
{
    let front = block.len().min(source.frame_len());
    if !source.begin_frame(&mut block[..front])? {
        return Ok(false);
    }
    sink.begin_frame()?;
    sink.write_part(&block[..front])?;
    move_rest(source, front, sink, block)?;
    source.end_frame();
    sink.end_frame();
    Ok(true)
}

/// Copies the rest of a frame of which `before` bytes have already been copied.
fn move_rest<R: io::Read, W: io::Write>(
    source: &mut Source<R>,
    before: usize,
    sink: &mut Sink<W>,
    block: &mut [u8],
) -> Result<(), StreamError>
    requires some { 0 < length block.old }
    requires within { before ≤ source.old.frame_len }
    ensures moved { OnOk result (MovesSome (bytes_left R.remaining source.old)
        (bytes_left R.remaining source.new) (W.contents sink.old.writer.inner)
        (W.contents sink.new.writer.inner) (source.old.frame_len - before)) }
    ensures stopped { IfErr result (StopsCopy source.new sink.new) }
    ensures same { stream_of source.new ≡ stream_of source.old }
    ensures container { sink.new.container ≡ sink.old.container }
    ensures read { source.new.frames ≡ source.old.frames }
    ensures written { sink.new.frames ≡ sink.old.frames }
    ensures size { length block.new ≡ length block.old }
{
    let (frame_len, size) = (source.frame_len(), block.len());
    let mut done = before;
    while done < frame_len {
        let count = size.min(frame_len - done);
        source.read_part(done, &mut block[..count])?;
        sink.write_part(&block[..count])?;
        done += count;
    }
    Ok(())
}

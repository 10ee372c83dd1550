//! Copies frames that are edited: each is read into one picture, edited and written.
ghost use Rattle.std.specs.Prelude.{◌≡◌, IfErr, IfOk, OnErr};
ghost use Rattle.v_frame.specs.Prelude.{tables_of};
ghost use Rattle.v_frame_planar.specs.Planar.{sizes_of};
ghost use Rattle.v_frame_streams.specs.Breaks.{counts_of, BreaksCopy};
ghost use Rattle.v_frame_streams.specs.Copies.{Carries};
ghost use Rattle.v_frame_streams.specs.MadeFor.{IsMadeFor};
ghost use Rattle.v_frame_streams.specs.Pictures.{tables_of_bytes};
ghost use Rattle.v_frame_streams.specs.Plans.{plan_of, planned_bytes, CanMake};
ghost use Rattle.v_frame_streams.specs.Stops.{StopsCopy};
ghost use Rattle.v_frame_streams.specs.Sources.{bytes_left, stream_of};
ghost use Rattle.v_frame_streams.specs.Telling.{TellsUpTo};

use crate::error::StreamError;
use crate::maker::Maker;
use crate::picture::Picture;
use crate::progress::{Progress, show_one_more};
use crate::sink::Sink;
use crate::source::Source;
use std::io;
use v_frame::pixel::Pixel;

/// Reads, edits and writes at most `most` frames, up to the end of the source. Returns the number of frames written.
pub(crate) fn edit_frames<S: Pixel, T: Pixel, R: io::Read, W: io::Write, P: Progress>(
    source: &mut Source<R>,
    picture: &mut Picture<S>,
    maker: &mut Maker<S, T>,
    sink: &mut Sink<W>,
    most: u64,
    progress: &mut P,
) -> Result<u64, StreamError>
    requires made { IsMadeFor S.form source.old picture.old }
    requires can { CanMake S.BYTES T.BYTES (plan_of maker.old)
        (sizes_of (tables_of picture.old.frame)) }
    ensures carried { IfOk result (Carries source.old.container source.old.frame_len
        (bytes_left R.remaining source.old) (bytes_left R.remaining source.new)
        (W.contents sink.old.writer.inner) (W.contents sink.new.writer.inner) sink.old.container
        (λ bytes. planned_bytes S.form T.form (plan_of maker.old)
        (tables_of_bytes S.form source.old.layout (sizes_of (tables_of picture.old.frame)) bytes)) most) }
    ensures told { IfOk result (λ found. TellsUpTo P.shows found progress.old progress.new) }
    ensures stopped { IfErr result (StopsCopy source.new sink.new) }
    ensures broken { OnErr result (BreaksCopy source.old.container source.old.frame_len
        (bytes_left R.remaining source.old) 0 most (counts_of source.old sink.old)
        (counts_of source.new sink.new)) }
    ensures same { stream_of source.new ≡ stream_of source.old }
{
    for count in 0..most {
        if !picture.read(source)? {
            return Ok(count);
        }
        maker.write_frame(&picture.frame, sink)?;
        show_one_more(progress, count);
    }
    Ok(most)
}

//! The command `info`: prints the properties of a stream and the number of its frames.
ghost use Rattle.std.specs.Prelude.{◌≡◌, ◌≢◌, false, true, IfErr, IfOk, IsOk, OnOk};
ghost use Rattle.std.specs.Io.KnownBytes.{Appends};
ghost use Rattle.yuv_facts.specs.Facts.{stream_facts};
ghost use Rattle.yuv_facts.specs.Inputs.{ReportsInput};
ghost use Rattle.yuv_facts.specs.Info.{ReportsBroken, ReportsFrames, ReportsStream, ReportsWhole};
ghost use Rattle.v_frame_streams.specs.Prelude.{bytes_left, unread_of};
ghost use Rattle.v_frame_streams.specs.declared.stream.Place.TheVariants.{Output};
ghost use Rattle.yuv_words.specs.declared.command.CommandName.TheVariants.{Info};

mod text;

use std::alloc::Global;
use std::fs::OpenFile;
use std::io;
use std::rt::Files;
use std::time::Clock;
use text::{format_text, frames_text};
use v_frame_streams::{Place, Source, StreamError, skip_frames};
use yuv_system::{
    Fault, ProgressLine, Status, System, begin, expected_frames, open_file, test_limit, write_made,
};
use yuv_words::{Call, Options};

/// Prints the properties of a stream and the number of its frames. If a frame can't be read, the results so far are printed
/// before the error is returned.
///
/// # Errors
///
/// A [`Fault`] if the stream can't be read, or if the report can't be written.
pub fn do_info<H, F, I, O, E>(
    system: &mut System<'_, H, I, O, E>,
    call: &Call<'_>,
) -> Result<Status, Fault>
where
    H: Files<File = F> + AllocGlobal + Clock,
    F: OpenFile + io::Read,
    I: io::Read + Drop,
    O: io::Write,
    E: io::Write,
    requires { call.now.name ≡ Info }
    ensures { IfOk result (λ status. (status ≡ Status.Same)
        × ReportsInput F.remaining I.remaining call.now system.old.input
        (O.contents system.old.output) (O.contents system.new.output)) }
{
    let (name, options) = (call.first, &call.options);
    let mut file = open_file(system.rt, name, Place::First, &mut system.input)?;
    let len = file.len();
    let mut source = begin(system, name, &mut file, options.raw)?;
    test_limit(source.header(), Place::First, options.max_pixels)?;
    let alloc = system.rt.alloc();
    report_stream(
        alloc,
        &mut source,
        options,
        &mut system.output,
        &mut system.progress,
        len,
    )?;
    Ok(Status::Same)
}

/// Writes the properties of a stream, and then the number of its frames. `len` is the length of the file in bytes, if it is
/// known.
fn report_stream<R: io::Read, W: io::Write, H: Clock, E: io::Write>(
    alloc: Global,
    source: &mut Source<R>,
    options: &Options,
    out: &mut W,
    progress: &mut ProgressLine<'_, H, E>,
    len: Option<u64>,
) -> Result<(), StreamError>
    ensures unread { options.now.header ≡ true → source.new ≡ source.old }
    ensures header { options.now.header ≡ true → OnOk result (Appends
        (W.contents out.old) (W.contents out.new)
        (stream_facts source.old.header source.old.frame_len len)) }
    ensures counted { options.now.header ≡ false → OnOk result (ReportsStream source.old.container
        source.old.header source.old.frame_len len (bytes_left R.remaining source.old)
        (bytes_left R.remaining source.new) (W.contents out.old)
        (W.contents out.new)) }
    ensures broken { options.now.header ≡ false → IfErr result (λ error. error.place ≢ Output
        → ReportsBroken source.old.container source.old.header source.old.frame_len len
        (unread_of R.remaining source.old) (unread_of R.remaining source.new) source.old.frames
        (W.contents out.old) (W.contents out.new) error.problem) }
{
    let text = format_text(alloc, source.header(), source.frame_len(), len);
    write_made(out, text)?;
    report_frames(alloc, source, options, out, progress, len)
}

/// Counts the frames of a stream, and writes their number. `len` is the length of the file in bytes, if it is known. With
/// `--header`, nothing is read or written.
fn report_frames<R: io::Read, W: io::Write, H: Clock, E: io::Write>(
    alloc: Global,
    source: &mut Source<R>,
    options: &Options,
    out: &mut W,
    progress: &mut ProgressLine<'_, H, E>,
    len: Option<u64>,
) -> Result<(), StreamError>
    ensures done { options.now.header ≡ true → IsOk result }
    ensures unread { options.now.header ≡ true → source.new ≡ source.old }
    ensures unsaid { options.now.header ≡ true → out.new ≡ out.old }
    ensures counted { options.now.header ≡ false → OnOk result (ReportsFrames
        source.old.container source.old.frame_len (bytes_left R.remaining source.old)
        (bytes_left R.remaining source.new) (W.contents out.old)
        (W.contents out.new)) }
    ensures broken { options.now.header ≡ false → IfErr result (λ error. error.place ≢ Output
        → ReportsWhole source.old.container source.old.frame_len (unread_of R.remaining source.old)
        (unread_of R.remaining source.new) source.old.frames (W.contents out.old)
        (W.contents out.new) error.problem) }
{
    if options.header {
        return Ok(());
    }
    progress.expect(expected_frames(source, len));
    let counted = skip_frames(source, u64::MAX, progress);
    let frames = frames_counted(&counted, source);
    progress.end();
    write_made(out, frames_text(alloc, source.header(), frames))?;
    counted?;
    Ok(())
}

/// Returns the number of frames that were counted: all frames, or those before the frame that can't be read.
fn frames_counted<R: io::Read>(counted: &Result<u64, StreamError>, source: &Source<R>) -> u64
    ensures all { IfOk counted.now (λ found. result ≡ found) }
    ensures whole { IfErr counted.now (λ _. result ≡ source.now.frames) }
{
    match counted {
        Ok(found) => *found,
        Err(_) => source.frames(),
    }
}

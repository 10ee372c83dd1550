//! The command `diff`: saves the difference of two frames as a picture, and prints where they differ.
ghost use Rattle.std.specs.Prelude.{◌≡◌, ◌≢◌, ◌↔◌, ◌+◌, ◌++◌, false, string_bytes, unwrap_or, IfOk, IfSome, OnOk};
ghost use Rattle.v_frame.specs.Prelude.{one_byte, tables_of, two_bytes};
ghost use Rattle.v_frame_y4m.specs.Color.{depth_of};
ghost use Rattle.yuv_comparisons.specs.Differences.{DrawsDifference, DrawsFrames};
ghost use Rattle.yuv_comparisons.specs.Places.{chroma_said, first_said, found_said, greatest_said, plane_said, ShowNoDifference};
ghost use Rattle.v_frame_measures.specs.Prelude.{HaveOneSize};
ghost use Rattle.v_frame_streams.specs.Prelude.{bytes_left, stream_of, HaveOneFormat};
ghost use Rattle.yuv_words.specs.declared.command.CommandName.TheVariants.{Diff};

use crate::compare::warn_of_headers;
use crate::so_far::Above;
use std::alloc::{AllocError, Global};
use std::io;
use std::rt::Files;
use std::time::Clock;
use v_frame::frame::Frame;
use v_frame::pixel::Pixel;
use v_frame_measures::GreatestDifference;
use v_frame_streams::{Picture, Place, Source, check_formats};
use yuv_files::{FileKind, SystemFile};
use yuv_pictures::{Found, PictureError, PlaneDifference, differences, write_difference_picture};
use yuv_system::{
    Fault, Output, Status, System, Target, begin, frames_before, is_standard_output, most_pixels,
    no_memory, open_file, read_behind, test_target, write_above, write_formats, write_made,
    write_text,
};
use yuv_words::{Call, Options};

/// The default factor by which differences are multiplied.
const GAIN: u16 = 8;

/// Saves the difference of two frames as a picture, and prints where they differ.
///
/// # Errors
///
/// A [`Fault`] if a stream can't be read, if it does not have the requested frame, if the frames can't be compared, or if the
/// picture or the report can't be written.
pub fn do_diff<H, I, O, E>(
    system: &mut System<'_, H, I, O, E>,
    call: &Call<'_>,
) -> Result<Status, Fault>
where
    H: Files + AllocGlobal + Clock,
    H::File: SystemFile,
    I: io::Read + Drop,
    O: io::Write,
    E: io::Write,
    requires { call.now.name ≡ Diff }
{
    let (first, second, to) = (call.first, call.second, call.third);
    let options = &call.options;
    let rt = system.rt;
    let target = Target {
        name: to,
        written: FileKind::Png,
        inputs: &[first, second],
        is_forced: options.force,
    };
    test_target(rt, &target)?;
    let mut file = open_file(rt, first, Place::First, &mut system.input)?;
    let mut one = begin(system, first, &mut file, options.raw)?;
    let mut other_file = open_file(rt, second, Place::Second, &mut system.input)?;
    let mut other = begin(system, second, &mut other_file, options.raw_second)?;
    frames_before(options.frame)?;
    write_formats(system.progress.out(), one.header(), other.header());
    check_formats(&one, &other)?;
    warn_of_headers(system.progress.out(), options, one.header(), other.header());
    // Every test comes first, so that no partial file is left if a test fails.
    let mut output = Output::open(rt, &target, &mut system.output, system.progress.out())?;
    let mut above = Above::new();
    let drawn = write_difference(
        rt.alloc(),
        &mut one,
        &mut other,
        options,
        &mut output,
        &mut above,
    );
    write_above(system.progress.out(), first, &one, above.first);
    write_above(system.progress.out(), second, &other, above.second);
    let done = match drawn {
        Ok(drawn) => {
            let (_written, found) = drawn;
            Ok(found)
        }
        Err(fault) => Err(fault),
    };
    let found = output.settle(rt, done)?;
    let text = found_text(rt.alloc(), &found);
    if is_standard_output(to) {
        let Ok(text) = text else {
            return Err(Fault::Report(no_memory()));
        };
        // If nothing can be written to standard error, the picture is still written, and the exit status states the result.
        let _ = write_text(system.progress.out(), text.as_str());
    } else if let Err(error) = write_made(&mut system.output, text) {
        return Err(Fault::Report(error));
    }
    Ok(status_of(&found))
}

/// Writes the difference of the two requested frames, and returns the writer and the differences.
fn write_difference<R: io::Read, S: io::Read, W: io::Write + Drop>(
    alloc: Global,
    first: &mut Source<R>,
    second: &mut Source<S>,
    options: &Options,
    out: W,
    above: &mut Above,
) -> Result<(W, Found), Fault>
    ensures bytes { depth_of first.old.header.color ≡ 8 → IfOk result (λ drawn.
        DrawsFrames one_byte W.contents (W.contents out) options.now
        (stream_of first.old) (stream_of second.old)
        (bytes_left R.remaining first.old) (bytes_left R.remaining first.new)
        (bytes_left S.remaining second.old) (bytes_left S.remaining second.new) drawn.0 drawn.1) }
    ensures words { depth_of first.old.header.color ≢ 8 → IfOk result (λ drawn.
        DrawsFrames two_bytes W.contents (W.contents out) options.now
        (stream_of first.old) (stream_of second.old)
        (bytes_left R.remaining first.old) (bytes_left R.remaining first.new)
        (bytes_left S.remaining second.old) (bytes_left S.remaining second.new) drawn.0 drawn.1) }
{
    let before = frames_before(options.frame)?;
    check_formats(first, second)?;
    if first.header().color.bit_depth() == 8 {
        draw_frames::<u8, _, _, _>(alloc, first, second, before, options, out, above)
    } else {
        draw_frames::<u16, _, _, _>(alloc, first, second, before, options, out, above)
    }
}

/// Skips `before` frames of each stream, and writes the difference of the next two frames, whose samples have the type `T`.
fn draw_frames<T: Pixel, R: io::Read, S: io::Read, W: io::Write + Drop>(
    alloc: Global,
    first: &mut Source<R>,
    second: &mut Source<S>,
    before: u64,
    options: &Options,
    out: W,
    above: &mut Above,
) -> Result<(W, Found), Fault>
    requires number { before + 1 ≡ unwrap_or options.now.frame 1 }
    requires formats { HaveOneFormat first.old.header second.old.header }
    ensures { IfOk result (λ drawn. DrawsFrames T.form W.contents (W.contents out) options.now
        (stream_of first.old) (stream_of second.old)
        (bytes_left R.remaining first.old) (bytes_left R.remaining first.new)
        (bytes_left S.remaining second.old) (bytes_left S.remaining second.new) drawn.0 drawn.1) }
{
    let most = most_pixels(options.max_pixels);
    let mut one = Picture::<T>::new(alloc, first, most)?;
    let mut other = Picture::<T>::new(alloc, second, most)?;
    read_behind(first, &mut one, before, Place::First)?;
    read_behind(second, &mut other, before, Place::Second)?;
    let number = before.saturating_add(1);
    above.note((number, &one.frame), (number, &other.frame));
    let drawn = draw_difference(alloc, out, &one.frame, &other.frame, gain_of(options))?;
    Ok(drawn)
}

/// Returns the factor by which differences are multiplied.
fn gain_of(options: &Options) -> u16
    ensures { result ≡ unwrap_or options.now.gain 8 }
{
    options.gain.unwrap_or(GAIN)
}

/// Writes the difference of two frames of the same size, and returns the writer and the differences.
fn draw_difference<T: Pixel, W: io::Write + Drop>(
    alloc: Global,
    out: W,
    first: &Frame<T>,
    second: &Frame<T>,
    gain: u16,
) -> Result<(W, Found), PictureError>
    requires { HaveOneSize (tables_of first.now) (tables_of second.now) }
    ensures { IfOk result (λ drawn. DrawsDifference T.form W.contents (W.contents out) gain
        (tables_of first.now) (tables_of second.now) drawn.0 drawn.1) }
{
    let out = write_difference_picture(alloc, out, first, second, gain)?;
    Ok((out, differences(first, second)))
}

/// Returns a line for each plane.
fn found_text(alloc: Global, found: &Found) -> Result<String, AllocError>
    ensures { IfOk result (λ text. string_bytes text ≡ found_said found.now) }
{
    let mut text = String::new(alloc);
    push_plane(&mut text, "Y", &found.y)?;
    push_chroma(&mut text, "U", &found.u)?;
    push_chroma(&mut text, "V", &found.v)?;
    Ok(text)
}

/// Appends the line of a chroma plane, if the frames have it.
fn push_chroma(
    text: &mut String,
    name: &str,
    found: &Option<PlaneDifference>,
) -> Result<(), AllocError>
    ensures { OnOk result (string_bytes text.new
        ≡ string_bytes text.old ++ chroma_said name.now found.now) }
{
    match found {
        Some(found) => push_plane(text, name, found),
        None => Ok(()),
    }
}

/// Appends the line of a plane.
fn push_plane(text: &mut String, name: &str, found: &PlaneDifference) -> Result<(), AllocError>
    ensures { OnOk result (string_bytes text.new
        ≡ string_bytes text.old ++ plane_said name.now found.now) }
{
    let Some(place) = found.first else {
        return writeln!(text, "{name}: no difference");
    };
    push_first(text, name, found.count, place)?;
    push_greatest(text, &found.greatest)
}

/// Appends the number of samples of a plane that differ, and the place of the first one.
fn push_first(
    text: &mut String,
    name: &str,
    samples: usize,
    place: (usize, usize),
) -> Result<(), AllocError>
    ensures { OnOk result (string_bytes text.new
        ≡ string_bytes text.old ++ first_said name.now samples place) }
{
    let (x, y) = place;
    write!(
        text,
        "{name}: {samples} samples differ; first difference: column {x}, row {y}"
    )
}

/// Appends the greatest difference, and the first place where it occurs.
fn push_greatest(text: &mut String, greatest: &GreatestDifference) -> Result<(), AllocError>
    ensures { OnOk result (string_bytes text.new
        ≡ string_bytes text.old ++ greatest_said greatest.now) }
{
    let GreatestDifference { difference, x, y } = *greatest;
    writeln!(
        text,
        "; greatest difference: {difference}, column {x}, row {y}"
    )
}

/// Returns whether the frames have a chroma plane and differ in it.
fn chroma_differs(found: &Option<PlaneDifference>) -> bool
    ensures { (result ≡ false) ↔ IfSome found.now (λ plane. plane.count ≡ 0) }
{
    match found {
        Some(found) => found.count > 0,
        None => false,
    }
}

/// Returns the exit status, which has the same meaning as that of `compare`.
fn status_of(found: &Found) -> Status
    ensures same { (result ≡ Status.Same) ↔ ShowNoDifference found.now }
    ensures never { result ≢ Status.Failed }
{
    if found.y.count > 0 || chroma_differs(&found.u) || chroma_differs(&found.v) {
        Status::Different
    } else {
        Status::Same
    }
}

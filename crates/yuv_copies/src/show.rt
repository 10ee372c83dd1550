//! The command `show`: saves a frame as a picture.
ghost use Rattle.std.specs.Prelude.{◌≡◌, IfErr, IfOk, IsSomeAnd};
ghost use Rattle.v_frame_png.specs.Prelude.{HasFile};
ghost use Rattle.v_frame.specs.Prelude.{tables_of};
ghost use Rattle.yuv_copies.specs.Shows.{colors_asked, drawing_of, ShowsFrame, StopsDrawing, TakesFrame};
ghost use Rattle.yuv_pictures.specs.declared.error.PictureError.{PictureError as TheError};
ghost use Rattle.v_frame_streams.specs.Conversions.{format_in, format_of, sizes_laid_out};
ghost use Rattle.v_frame_streams.specs.Prelude.{bytes_left, cropped, sizes_in, stream_of, IsUnpadded};
ghost use Rattle.yuv_words.specs.declared.command.CommandName.TheVariants.{Show};

use std::alloc::Global;
use std::io;
use std::rt::Files;
use std::time::Clock;
use v_frame::frame::Frame;
use v_frame::pixel::Pixel;
use v_frame_formats::Component;
use v_frame_streams::{Picture, Place, Rectangle, Source, StreamError, check_crop, crop_frame};
use v_frame_y4m::StreamHeader;
use yuv_files::{FileKind, SystemFile};
use yuv_pictures::{
    Colors, PictureError, has_sample_above, write_frame_picture, write_plane_picture,
};
use yuv_system::{
    Fault, Output, Status, System, Target, begin, frames_before, is_standard_output, matrix_name,
    most_pixels, no_memory, open_file, range_name, read_behind, test_pixels, test_target,
    used_matrix, used_range, write_above, write_made, write_size_of_crop, write_text,
};
use yuv_words::{Call, Options};

/// Saves a frame of a stream as a picture.
///
/// # Errors
///
/// A [`Fault`] if the stream can't be read, or does not have the requested frame, plane or part; if the frame number is 0; if its
/// pictures have more pixels than the options allow; or if the picture can't be created or written.
pub fn do_show<H, I, O, E>(
    system: &mut System<'_, H, I, O, E>,
    call: &Call<'_>,
) -> Result<Status, Fault>
where
    H: Files + AllocGlobal + Clock,
    H::File: SystemFile,
    I: io::Read + Drop,
    O: io::Write,
    E: io::Write,
    requires { call.now.name ≡ Show }
{
    let (from, to) = (call.first, call.second);
    let options = &call.options;
    let rt = system.rt;
    let target = Target {
        name: to,
        written: FileKind::Png,
        inputs: &[from],
        is_forced: options.force,
    };
    test_target(rt, &target)?;
    let mut file = open_file(rt, from, Place::First, &mut system.input)?;
    let mut source = begin(system, from, &mut file, options.raw)?;
    // The size is tested before a file is created.
    test_pixels(
        source.header(),
        Place::First,
        most_pixels(options.max_pixels),
    )?;
    let mut output = Output::open(rt, &target, &mut system.output, system.progress.out())?;
    let colors = colors_of(options, source.header());
    let mut above = None;
    let shown = if source.header().color.bit_depth() == 8 {
        show_frame::<u8, _, _>(rt.alloc(), &mut source, options, &mut output, &mut above)
    } else {
        show_frame::<u16, _, _>(rt.alloc(), &mut source, options, &mut output, &mut above)
    };
    write_above(system.progress.out(), from, &source, above);
    let done = match shown {
        Ok(_written) => Ok(()),
        Err(fault) => {
            if let Fault::Stream(error) = &fault {
                write_size_of_crop(system.progress.out(), from, source.header(), &error.problem);
            }
            Err(fault)
        }
    };
    output.settle(rt, done)?;
    if options.plane.is_none() {
        report_colors(system, to, &colors)?;
    }
    Ok(Status::Same)
}

/// Prints the color standard and the range with which the picture was calculated: on standard error if the picture goes to
/// standard output.
fn report_colors<H: AllocGlobal + Clock, I, O: io::Write, E: io::Write>(
    system: &mut System<'_, H, I, O, E>,
    to: &str,
    colors: &Colors,
) -> Result<(), Fault> {
    let (matrix, range) = (matrix_name(colors.standard), range_name(colors.range));
    let text = format!(in system.rt.alloc(); "matrix {matrix}, range {range}\n");
    if is_standard_output(to) {
        let Ok(text) = text else {
            return Err(Fault::Report(no_memory()));
        };
        // The picture is already written, so an error here is ignored.
        let _ = write_text(system.progress.out(), text.as_str());
        return Ok(());
    }
    match write_made(&mut system.output, text) {
        Ok(()) => Ok(()),
        Err(error) => Err(Fault::Report(error)),
    }
}

/// Writes the requested frame or a part of it, and returns the writer.
fn show_frame<T: Pixel, R: io::Read, W: io::Write + Drop>(
    alloc: Global,
    source: &mut Source<R>,
    options: &Options,
    out: W,
    above: &mut Option<u64>,
) -> Result<W, Fault>
    ensures { IfOk result (ShowsFrame (stream_of source.old) (bytes_left R.remaining source.old)
        (bytes_left R.remaining source.new) options.now T.form W.contents (W.contents out)) }
{
    let colors = colors_of(options, source.header());
    let picture = read_picture::<T, _>(alloc, source, options)?;
    note_above(&picture.frame, options.frame, above);
    match &options.crop {
        None => write_picture(alloc, out, picture.frame(), options.plane, colors),
        Some(part) => {
            let frame = crop_picture(alloc, source, &picture, part)?;
            write_picture(alloc, out, &frame, options.plane, colors)
        }
    }
}

/// Sets `above` to the number of a frame, which is 1 by default, if it has a sample above the greatest value of its bit depth.
/// Samples of 8 bits are never above it.
fn note_above<T: Pixel>(frame: &Frame<T>, number: Option<u64>, above: &mut Option<u64>) {
    if frame.bit_depth.get() > 8 && has_sample_above(frame) {
        *above = Some(number.unwrap_or(1));
    }
}

/// Reads the requested frame. The requested part is tested before a frame is read.
fn read_picture<T: Pixel, R: io::Read>(
    alloc: Global,
    source: &mut Source<R>,
    options: &Options,
) -> Result<Picture<T>, Fault>
    ensures taken { IfOk result (λ picture. TakesFrame (stream_of source.old)
        (bytes_left R.remaining source.old) (bytes_left R.remaining source.new) options.now T.form
        (tables_of picture.frame)) }
    ensures sizes { IfOk result (λ picture. sizes_laid_out picture.frame ≡ sizes_in source.old.header) }
    ensures format { IfOk result (λ picture. format_of picture.frame ≡ format_in source.old.header.color) }
{
    let before = frames_before(options.frame)?;
    if let Some(part) = &options.crop {
        check_crop(source, part)?;
    }
    let most = most_pixels(options.max_pixels);
    let mut picture = Picture::<T>::new(alloc, source, most)?;
    read_behind(source, &mut picture, before, Place::First)?;
    // The planes have the sizes that they show.
    let _frame = picture.frame();
    Ok(picture)
}

/// Returns the requested part of a picture.
fn crop_picture<T: Pixel, R: io::Read>(
    alloc: Global,
    source: &Source<R>,
    picture: &Picture<T>,
    part: &Rectangle,
) -> Result<Frame<T>, StreamError>
    ensures shown { IfOk result (λ made. tables_of made
        ≡ cropped picture.now.frame.subsampling part.now (tables_of picture.now.frame)) }
    ensures format { IfOk result (λ made. format_of made ≡ format_of picture.now.frame) }
    ensures unpadded { IfOk result (IsUnpadded part.now picture.now.frame) }
{
    match crop_frame(alloc, &picture.frame, part) {
        Ok(frame) => Ok(frame),
        Err(problem) => Err(StreamError {
            place: Place::First,
            frames: source.frames(),
            problem,
            cause: None,
        }),
    }
}

/// Writes one plane of a frame or its colors, and returns the writer.
fn write_picture<T: Pixel, W: io::Write + Drop>(
    alloc: Global,
    out: W,
    frame: &Frame<T>,
    plane: Option<Component>,
    colors: Colors,
) -> Result<W, Fault>
    ensures file { IfOk result (λ new. IsSomeAnd (drawing_of T.form frame.now plane colors)
        (λ drawing. HasFile W.contents (W.contents out) new drawing.0 drawing.1)) }
    ensures error { IfErr result (λ fault. (error : TheError)
        × (fault ≡ Fault.Picture error) × StopsDrawing T.BYTES frame.now plane error) }
{
    match draw_picture(alloc, out, frame, plane, colors) {
        Ok(out) => Ok(out),
        Err(error) => Err(Fault::Picture(error)),
    }
}

/// Writes one plane of a frame or its colors.
fn draw_picture<T: Pixel, W: io::Write + Drop>(
    alloc: Global,
    out: W,
    frame: &Frame<T>,
    plane: Option<Component>,
    colors: Colors,
) -> Result<W, PictureError>
    ensures file { IfOk result (λ new. IsSomeAnd (drawing_of T.form frame.now plane colors)
        (λ drawing. HasFile W.contents (W.contents out) new drawing.0 drawing.1)) }
    ensures error { IfErr result (StopsDrawing T.BYTES frame.now plane) }
{
    match plane {
        Some(plane) => write_plane_picture(alloc, out, frame, plane),
        None => write_frame_picture(alloc, out, frame, colors),
    }
}

/// Returns the color standard and the range for the pictures of a stream: those of the options if given, and those of the header
/// otherwise.
fn colors_of(options: &Options, header: &StreamHeader) -> Colors
    ensures { result ≡ colors_asked options.now header.now }
{
    Colors {
        standard: used_matrix(options.matrix, header),
        range: used_range(options.range, header),
    }
}

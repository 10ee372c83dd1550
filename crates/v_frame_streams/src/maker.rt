//! Edits each frame before it is written: crop, halving and conversion to another format.
ghost use Rattle.std.specs.Prelude.{◌≡◌, if◌then◌else◌, option_map, true, IfErr, IfOk, None, OnErr, OnOk, Some};
ghost use Rattle.std.specs.Io.KnownBytes.{Appends};
ghost use Rattle.v_frame.specs.Prelude.{tables_of};
ghost use Rattle.v_frame_planar.specs.Planar.{sizes_of};
ghost use Rattle.v_frame_streams.specs.Conversions.{format_in, is_same_format};
ghost use Rattle.v_frame_streams.specs.Copies.{copied_header, plan_for};
ghost use Rattle.v_frame_streams.specs.Pictures.{sizes_in};
ghost use Rattle.v_frame_streams.specs.Plans.{bytes_in_layout, bytes_made, plan_of, planned_bytes, shape_of, CanLayOut, CanMake, FitsLayout};
ghost use Rattle.v_frame_streams.specs.Stops.{IsAtNextWritten};
ghost use Rattle.v_frame_streams.specs.Streams.{frames_after, written_bytes};

use crate::colors::is_same_format as have_one_format;
use crate::converting::convert_to_format;
use crate::edit::{Edit, edit_frame};
use crate::error::{Problem, StreamError};
use crate::options::CopyOptions;
use crate::picture::blank_frame;
use crate::plan::edit_of;
use crate::sink::Sink;
use std::alloc::Global;
use std::io;
use v_frame::frame::Frame;
use v_frame::pixel::Pixel;
use v_frame_semi_planar::SemiPlanarFormat;
use v_frame_y4m::{Color, StreamHeader};

/// Edits frames one after the other. It holds the memory for the intermediate frames.
#[derive(Drop)]
pub(crate) struct Maker<S: Pixel, T: Pixel> {
    /// The crop and the halving.
    pub(crate) edit: Edit,
    /// The edited frame, in the format of the source.
    pub(crate) made: Frame<S>,
    /// The edited frame in the output format, if that differs from the format of the source.
    pub(crate) converted: Option<Frame<T>>,
    /// The semi-planar layout of the output, or `None` for planar frames.
    pub(crate) layout: Option<SemiPlanarFormat>,
}

impl<S: Pixel, T: Pixel> Maker<S, T> {
    /// Allocates the frames that a copy with these options needs. `there` is the header of the source, `written` the header of
    /// the output, and `layout` the layout of the output.
    pub(crate) fn new(
        alloc: Global,
        options: &CopyOptions,
        there: &StreamHeader,
        written: &StreamHeader,
        layout: Option<SemiPlanarFormat>,
    ) -> Result<Self, Problem>
        requires { written.now ≡ copied_header options.now there.now }
        ensures plan { IfOk result (λ maker. plan_of maker ≡ plan_for options.now there.now layout) }
    {
        let (width, height) = (written.width, written.height);
        let made = blank_frame(alloc, width, height, there.color, options.max_pixels)?;
        let converted = converted_frame(alloc, there.color, written, options.max_pixels)?;
        Ok(Maker {
            edit: edit_of(options, there),
            made,
            converted,
            layout,
        })
    }

    /// Edits `frame` and writes the result.
    pub(crate) fn write_frame<W: io::Write>(
        &mut self,
        frame: &Frame<S>,
        sink: &mut Sink<W>,
    ) -> Result<(), StreamError>
        requires { CanMake S.BYTES T.BYTES (plan_of self.old) (sizes_of (tables_of frame.now)) }
        ensures ok { OnOk result (Appends (W.contents sink.old.writer.inner)
            (W.contents sink.new.writer.inner) (written_bytes sink.old.container
            (planned_bytes S.form T.form (plan_of self.old) (tables_of frame.now)))) }
        ensures stopped { IfErr result (IsAtNextWritten sink.new) }
        ensures container { sink.new.container ≡ sink.old.container }
        ensures counted { OnOk result (sink.new.frames ≡ frames_after sink.old.frames true) }
        ensures uncounted { OnErr result (sink.new.frames ≡ sink.old.frames) }
        ensures plan { plan_of self.new ≡ plan_of self.old }
    {
        self.show(frame);
        self.write(sink)
    }

    /// Edits `frame` and keeps the result in `made` and `converted`.
    fn show(&mut self, frame: &Frame<S>)
        requires { CanMake S.BYTES T.BYTES (plan_of self.old) (sizes_of (tables_of frame.now)) }
        ensures shown { bytes_made S.form T.form self.new.layout self.new.made self.new.converted
            ≡ planned_bytes S.form T.form (plan_of self.old) (tables_of frame.now) }
        ensures plan { plan_of self.new ≡ plan_of self.old }
    {
        edit_frame(&self.edit, frame, &mut self.made);
        if let Some(converted) = &mut self.converted {
            convert_to_format(&self.made, converted);
        }
    }

    /// Writes the edited frame.
    fn write<W: io::Write>(&self, sink: &mut Sink<W>) -> Result<(), StreamError>
        requires { CanLayOut S.BYTES T.BYTES self.now.layout (shape_of self.now.made)
            (option_map shape_of self.now.converted) }
        ensures ok { OnOk result (Appends (W.contents sink.old.writer.inner)
            (W.contents sink.new.writer.inner) (written_bytes sink.old.container
            (bytes_made S.form T.form self.now.layout self.now.made self.now.converted))) }
        ensures stopped { IfErr result (IsAtNextWritten sink.new) }
        ensures container { sink.new.container ≡ sink.old.container }
        ensures counted { OnOk result (sink.new.frames ≡ frames_after sink.old.frames true) }
        ensures uncounted { OnErr result (sink.new.frames ≡ sink.old.frames) }
    {
        match &self.converted {
            Some(converted) => write_in_layout(sink, converted, self.layout),
            None => write_in_layout(sink, &self.made, self.layout),
        }
    }
}

/// Returns a blank frame in the format that the header `written` describes, or `None` if the color `there` of the source has
/// the same format.
fn converted_frame<T: Pixel>(
    alloc: Global,
    there: Color,
    written: &StreamHeader,
    max_pixels: usize,
) -> Result<Option<Frame<T>>, Problem>
    ensures { let to = format_in written.now.color in
        IfOk result (λ frame. option_map shape_of frame
        ≡ (if is_same_format (format_in there) to then None else Some (to, sizes_in written.now))) }
{
    if have_one_format(there, written.color) {
        return Ok(None);
    }
    let frame = blank_frame(
        alloc,
        written.width,
        written.height,
        written.color,
        max_pixels,
    )?;
    Ok(Some(frame))
}

/// Writes a frame in the semi-planar layout `layout`, or in planar order if `layout` is `None`.
fn write_in_layout<T: Pixel, W: io::Write>(
    sink: &mut Sink<W>,
    frame: &Frame<T>,
    layout: Option<SemiPlanarFormat>,
) -> Result<(), StreamError>
    requires { FitsLayout T.BYTES layout (shape_of frame.now) }
    ensures ok { OnOk result (Appends (W.contents sink.old.writer.inner)
        (W.contents sink.new.writer.inner) (written_bytes sink.old.container
        (bytes_in_layout T.form layout (tables_of frame.now)))) }
    ensures stopped { IfErr result (IsAtNextWritten sink.new) }
    ensures container { sink.new.container ≡ sink.old.container }
    ensures counted { OnOk result (sink.new.frames ≡ frames_after sink.old.frames true) }
    ensures uncounted { OnErr result (sink.new.frames ≡ sink.old.frames) }
{
    match layout {
        Some(layout) => sink.write_layout(frame, layout),
        None => sink.write_frame(frame),
    }
}

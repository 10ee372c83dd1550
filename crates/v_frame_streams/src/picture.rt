//! A frame that is reused for each frame of a stream.
ghost use Rattle.std.specs.Prelude.{◌≡◌, ◌↔◌, ◌≤◌, ◌<◌, ◌+◌, ◌*◌, false, option_map, Err, IfErr, IfOk, IfSome, IsErrAnd, IsOkUnless, IsTrue, MatchOption, OnErr};
ghost use Rattle.v_frame.specs.Prelude.{table_of, tables_of, KeepsBorders};
ghost use Rattle.v_frame_planar.specs.Planar.{sizes_of};
ghost use Rattle.v_frame_planar.specs.Shown.{FillsFrame};
ghost use Rattle.v_frame_planar.specs.Video.{chroma_sizes_of, video_refusal_of};
ghost use Rattle.v_frame_y4m.specs.Color.{depth_of, subsampling_of};
ghost use Rattle.v_frame_y4m.specs.Frames.{pixel_bytes};
ghost use Rattle.v_frame_streams.specs.Conversions.{format_in, format_of, sizes_laid_out, LayoutFits};
ghost use Rattle.v_frame_streams.specs.Errors.{picture_request, RefusesPicture, StopsAtFrame, StopsFrame};
ghost use Rattle.v_frame_streams.specs.Stops.{IsAtNextFrame, RefusesPictureOf};
ghost use Rattle.v_frame_streams.specs.MadeFor.{IsMadeFor};
ghost use Rattle.v_frame_streams.specs.Nth.{ReadsNth};
ghost use Rattle.v_frame_streams.specs.Pictures.{sizes_in, tables_in_layout, tables_of_bytes, AreEven, IsEven, ReadsTables};
ghost use Rattle.v_frame_streams.specs.Plans.{shape_of, FitsLayout};
ghost use Rattle.v_frame_streams.specs.Sources.{bytes_left, stream_of, unread_of};
ghost use Rattle.v_frame_streams.specs.Streams.{frames_after};

use crate::converting::sizes_are_laid_out;
use crate::error::{Problem, StreamError};
use crate::passing::skip_frames;
use crate::progress::Silent;
use crate::shapes::{has_format, has_sizes};
use crate::source::Source;
use std::alloc::Global;
use std::io;
use v_frame::frame::{Frame, FrameError};
use v_frame::pixel::Pixel;
use v_frame::plane::Plane;
use v_frame_planar::{planar_len, show_planar_bytes, video_frame};
use v_frame_semi_planar::{SemiPlanarFormat, show_semi_planar_bytes};
use v_frame_y4m::Color;

/// A frame that is reused for each frame of a stream, with a buffer for the bytes of one frame.
#[derive(Drop)]
pub struct Picture<T: Pixel> {
    /// The frame that was read last. Changes to it last until the next frame is read.
    pub frame: Frame<T>,
    bytes: Vec<u8>,
}

impl<T: Pixel> Picture<T> {
    /// Allocates a picture for the frames of `source`. `max_pixels` is the largest number of luma pixels that a frame may have.
    ///
    /// # Errors
    ///
    /// The first of these that applies:
    ///
    /// - [`Problem::TooManyPixels`] if a frame has more than `max_pixels` luma pixels.
    /// - [`Problem::TooLarge`] if a plane is too large for the address space, or if the bit depth of the stream does not match
    ///   the size of `T`.
    /// - [`Problem::OutOfMemory`] if a memory allocation fails.
    pub fn new<R: io::Read>(
        alloc: Global,
        source: &Source<R>,
        max_pixels: usize,
    ) -> Result<Self, StreamError>
        ensures made { IfOk result (IsMadeFor T.form source.now) }
        ensures sizes { IfOk result (λ picture. sizes_of (tables_of picture.frame) ≡ sizes_in source.now.header) }
        ensures format { IfOk result (λ picture. format_of picture.frame ≡ format_in source.now.header.color) }
        ensures small { IfOk result (λ _. source.now.header.width * source.now.header.height ≤ max_pixels) }
        ensures many { max_pixels < source.now.header.width * source.now.header.height
            → IsErrAnd result (λ error. error.problem ≡ Problem.TooManyPixels max_pixels) }
        ensures refused { let header = source.now.header in header.width * header.height ≤ max_pixels
            → MatchOption (video_refusal_of T.BYTES (picture_request header.width header.height header.color))
            (IfErr result (λ error. error.problem ≡ Problem.OutOfMemory))
            (λ _. IsErrAnd result (λ error. error.problem ≡ Problem.TooLarge)) }
        ensures problem { IfErr result (λ error. RefusesPictureOf max_pixels T.BYTES source.now.header error.problem) }
        ensures stopped { IfErr result (IsAtNextFrame source.now) }
    {
        let header = source.header();
        let frame = match blank_frame(
            alloc,
            header.width,
            header.height,
            header.color,
            max_pixels,
        ) {
            Ok(frame) => frame,
            Err(problem) => return Err(source.refused(problem)),
        };
        let mut bytes = Vec::new(alloc);
        match bytes.resize(source.frame_len(), 0) {
            Ok(()) => Ok(Picture { frame, bytes }),
            Err(_) => {
                drop(frame);
                Err(source.refused(Problem::OutOfMemory))
            }
        }
    }

    /// Returns the frame that was read last.
    pub fn frame(&self) -> &Frame<T>
        ensures value { result.now ≡ self.now.frame }
        ensures laid_out { sizes_of (tables_of self.now.frame) ≡ sizes_laid_out self.now.frame }
    {
        sizes_are_laid_out(&self.frame);
        &self.frame
    }

    /// Returns the bytes of the frame that was read last, in the order in which the stream has them.
    ///
    /// After a call of [`read`](Self::read) or [`read_nth`](Self::read_nth) that returned `false` or an error, the slice still has
    /// the length of a frame, but its contents are unspecified: part of it may have been overwritten.
    pub fn bytes(&self) -> &[u8]
        ensures { result.now ≡ self.now.bytes.items }
    {
        self.bytes.as_slice()
    }

    /// Returns whether [`read`](Self::read) can read frames of `source` into this picture: whether the sizes, the chroma
    /// subsampling, the bit depth and the number of bytes match. They match if the picture was made for `source` and
    /// `frame` has not been replaced.
    pub fn is_made_for<R: io::Read>(&self, source: &Source<R>) -> bool
        ensures { IsTrue result ↔ IsMadeFor T.form source.now self.now }
    {
        self.bytes.len() == source.frame_len()
            && planar_len(&self.frame) == self.bytes.len()
            && has_format(&self.frame, source.header().color)
            && has_sizes(&self.frame, source.header())
    }

    /// Reads the next frame of `source` into `frame`. Returns `false` if `source` is at its end. `frame` is then unchanged. The
    /// padding of `frame` is never changed.
    ///
    /// The picture must match the frames of `source`, which [`is_made_for`](Self::is_made_for) tests. It does if it was made
    /// for `source`, or for a stream with the same size and color.
    ///
    /// # Errors
    ///
    /// [`Problem::Stream`] if the frame cannot be read whole. `frame` is then unchanged. Do not read from `source` after an error:
    /// the bytes of the incomplete frame are lost.
    pub fn read<R: io::Read>(&mut self, source: &mut Source<R>) -> Result<bool, StreamError>
        requires { IsMadeFor T.form source.old self.old }
        ensures read { IfOk result (ReadsTables T.form source.old.container source.old.frame_len
            source.old.layout (sizes_of (tables_of self.old.frame)) (bytes_left R.remaining source.old)
            (bytes_left R.remaining source.new) self.new.bytes.items (tables_of self.new.frame)) }
        ensures problem { IfErr result (λ error. StopsFrame source.old.container
            (unread_of R.remaining source.old) (unread_of R.remaining source.new)
            source.old.frame_len error.problem) }
        ensures stopped { IfErr result (IsAtNextFrame source.new) }
        ensures same { stream_of source.new ≡ stream_of source.old }
        ensures made { IsMadeFor T.form source.new self.new }
        ensures sizes { sizes_of (tables_of self.new.frame) ≡ sizes_of (tables_of self.old.frame) }
        ensures format { format_of self.new.frame ≡ format_of self.old.frame }
        ensures frames { IfOk result (λ more. source.new.frames ≡ frames_after source.old.frames more) }
        ensures uncounted { IfErr result (λ _. source.new.frames ≡ source.old.frames) }
        ensures borders { KeepsBorders self.old.frame self.new.frame }
        ensures at_end { IfOk result (λ more. more ≡ false → self.new.frame ≡ self.old.frame) }
        ensures unread { OnErr result (self.new.frame ≡ self.old.frame) }
    {
        if !source.begin_frame(self.bytes.as_mut_slice())? {
            return Ok(false);
        }
        show_frame(&mut self.frame, self.bytes.as_slice(), source.layout());
        source.end_frame();
        Ok(true)
    }

    /// Skips `before` frames of `source` and reads the next frame into `frame`, like `Iterator::nth`. Returns `false` if
    /// `source` has no frame after the skipped ones. It is then at its end, and `frame` is unchanged. The padding of `frame` is
    /// never changed.
    ///
    /// The picture must match the frames of `source`, as for [`read`](Self::read).
    ///
    /// # Errors
    ///
    /// [`Problem::Stream`] if a frame cannot be read whole. `frame` is then unchanged. Do not read from `source` after an error:
    /// the bytes of the incomplete frame are lost.
    pub fn read_nth<R: io::Read>(
        &mut self,
        source: &mut Source<R>,
        before: u64,
    ) -> Result<bool, StreamError>
        requires { IsMadeFor T.form source.old self.old }
        ensures read { IfOk result (ReadsNth T.form before (stream_of source.old)
            (bytes_left R.remaining source.old) (bytes_left R.remaining source.new)
            (tables_of self.new.frame) self.new.bytes.items source.old.frames source.new.frames) }
        ensures problem { IfErr result (λ error. StopsAtFrame source.old.container source.old.frame_len
            (unread_of R.remaining source.old) (unread_of R.remaining source.new) (before + 1)
            source.old.frames source.new.frames error.problem) }
        ensures stopped { IfErr result (IsAtNextFrame source.new) }
        ensures same { stream_of source.new ≡ stream_of source.old }
        ensures made { IsMadeFor T.form source.new self.new }
        ensures sizes { sizes_of (tables_of self.new.frame) ≡ sizes_of (tables_of self.old.frame) }
        ensures format { format_of self.new.frame ≡ format_of self.old.frame }
        ensures borders { KeepsBorders self.old.frame self.new.frame }
        ensures at_end { IfOk result (λ more. more ≡ false → self.new.frame ≡ self.old.frame) }
        ensures unread { OnErr result (self.new.frame ≡ self.old.frame) }
    {
        let passed = skip_frames(source, before, &mut Silent)?;
        if passed < before {
            return Ok(false);
        }
        self.read(source)
    }
}

/// Returns a blank frame of this size and color, if it has at most `max_pixels` luma pixels.
pub(crate) fn blank_frame<T: Pixel>(
    alloc: Global,
    width: usize,
    height: usize,
    color: Color,
    max_pixels: usize,
) -> Result<Frame<T>, Problem>
    ensures sizes { let chroma = chroma_sizes_of (subsampling_of color) width height in
        IfOk result (λ frame. sizes_of (tables_of frame) ≡ ((width, height), (chroma, chroma))) }
    ensures format { IfOk result (λ frame. format_of frame ≡ format_in color) }
    ensures pixels { IfOk result (λ _. T.form.size ≡ pixel_bytes (depth_of color)) }
    ensures small { IfOk result (λ _. width * height ≤ max_pixels) }
    ensures many { max_pixels < width * height → result ≡ Err (Problem.TooManyPixels max_pixels) }
    ensures refused { width * height ≤ max_pixels
        → MatchOption (video_refusal_of T.BYTES (picture_request width height color))
        (IsOkUnless result Problem.OutOfMemory) (λ _. result ≡ Err Problem.TooLarge) }
    ensures problem { IfErr result (RefusesPicture max_pixels T.BYTES width height color) }
{
    match width.checked_mul(height) {
        Some(pixels) if pixels <= max_pixels => {}
        _ => return Err(Problem::TooManyPixels(max_pixels)),
    }
    match video_frame(
        alloc,
        width,
        height,
        color.subsampling(),
        color.bit_depth(),
        0,
    ) {
        Ok(frame) => Ok(frame),
        Err(FrameError::OutOfMemory) => Err(Problem::OutOfMemory),
        Err(_) => Err(Problem::TooLarge),
    }
}

/// Stores the bytes of a frame, which are in the semi-planar layout `layout` or else planar, in `frame`. The number of bytes
/// must be that of the frame.
fn show_frame<T: Pixel>(frame: &mut Frame<T>, bytes: &[u8], layout: Option<SemiPlanarFormat>)
    requires fills { FillsFrame T.form frame.old bytes.now }
    requires fits { FitsLayout T.form.size layout (shape_of frame.old) }
    ensures shown { tables_of frame.new
        ≡ tables_of_bytes T.form layout (sizes_of (tables_of frame.old)) bytes.now }
    ensures borders { KeepsBorders frame.old frame.new }
    ensures sizes { sizes_of (tables_of frame.new) ≡ sizes_of (tables_of frame.old) }
    ensures format { format_of frame.new ≡ format_of frame.old }
{
    match layout {
        Some(layout) => show_layout(frame, bytes, layout),
        None => show_planar_bytes(frame, bytes),
    }
}

/// Stores the bytes of a frame in a semi-planar layout in `frame`. The layout must match the frame, and the number of bytes
/// must be that of the frame.
fn show_layout<T: Pixel>(frame: &mut Frame<T>, bytes: &[u8], layout: SemiPlanarFormat)
    requires fills { FillsFrame T.form frame.old bytes.now }
    requires fits { LayoutFits T.form.size layout (format_of frame.old) (sizes_of (tables_of frame.old)) }
    ensures shown { tables_of frame.new
        ≡ tables_in_layout T.form layout (sizes_of (tables_of frame.old)) bytes.now }
    ensures borders { KeepsBorders frame.old frame.new }
    ensures sizes { sizes_of (tables_of frame.new) ≡ sizes_of (tables_of frame.old) }
    ensures format { format_of frame.new ≡ format_of frame.old }
{
    planes_are_even(frame);
    show_semi_planar_bytes(frame, bytes, layout);
    planes_are_even(frame);
}

/// All rows of each plane of a frame have the same length.
fn planes_are_even<T: Pixel>(frame: &Frame<T>)
    ensures { AreEven (tables_of frame.now) }
{
    plane_is_even(&frame.y_plane);
    chroma_is_even(&frame.u_plane);
    chroma_is_even(&frame.v_plane);
}

/// All rows of a chroma plane, if it is present, have the same length.
fn chroma_is_even<T: Pixel>(plane: &Option<Plane<T>>)
    ensures { IfSome (option_map table_of plane.now) IsEven }
{
    if let Some(plane) = plane {
        plane_is_even(plane);
    }
}

/// All rows of a plane have the same length.
fn plane_is_even<T: Pixel>(plane: &Plane<T>)
    ensures { IsEven (table_of plane.now) }
{
    // The contract of this call is the whole proof.
    let _width = plane.width();
}

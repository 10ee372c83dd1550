//! Video of any size that is read from a stream, and video that is written with the cause of any failure reported.
ghost use Rattle.std.specs.Prelude.{◌≡◌, ◌⊎◌, Some, IfErr, IfOk, IfSome, IsNone, OnOk};
ghost use Rattle.std.specs.Io.KnownBytes.{Appends, Consumes, IsAtEnd};
ghost use Rattle.std.specs.declared.io.ErrorKind.TheVariants.{WriteZero};
ghost use Rattle.v_frame.specs.Prelude.{one_byte, tables_of};
ghost use Rattle.v_frame_planar.specs.Planar.{planar_bytes, sizes_of};
ghost use Rattle.v_frame_planar.specs.Video.{chroma_sizes_of};

use std::alloc::Global;
use std::io;
use v_frame::chroma::ChromaSubsampling;
use v_frame::frame::{Frame, FrameError};
use v_frame::pixel::Pixel;
use v_frame_planar::{Counted, PlanarError, read_frame, video_frame, write_frame};

/// The reason why there is no first picture.
#[derive(Debug, PartialEq, Eq, Drop)]
pub enum VideoFault {
    /// The frame could not be built.
    Frame(FrameError),
    /// The picture could not be read.
    Planar(PlanarError),
}

/// Returns the first picture of a stream of 8-bit 4:2:0 pictures, or `None` at the end of the stream. The size may be odd.
pub fn first_picture<R: io::Read>(
    alloc: Global,
    reader: &mut Counted<R>,
    width: usize,
    height: usize,
) -> Result<Option<Frame<u8>>, VideoFault>
    ensures sizes { let chroma = chroma_sizes_of ChromaSubsampling.Yuv420 width height in
        IfOk result (λ picture. IfSome picture (λ frame.
        sizes_of (tables_of frame) ≡ ((width, height), (chroma, chroma)))) }
    ensures read { IfOk result (λ picture. IfSome picture (λ frame.
        Consumes (R.remaining reader.old.inner) (R.remaining reader.new.inner)
        (planar_bytes one_byte (tables_of frame)))) }
    ensures at_end { IfOk result (λ picture. IsNone picture
        → IsAtEnd (R.remaining reader.new.inner)) }
{
    let mut frame = video_frame::<u8>(
        alloc,
        width,
        height,
        ChromaSubsampling::Yuv420,
        8,
        0,
    ).map_err(VideoFault::Frame)?;
    let read = read_frame(alloc, reader, &mut frame).map_err(VideoFault::Planar)?;
    Ok(read.then_some(frame))
}

/// Writes a frame. If a write fails, its cause is returned. If a write takes no bytes, `WriteZero` is returned.
pub fn write_or_cause<T: Pixel, W: io::Write>(
    writer: &mut Counted<W>,
    frame: &Frame<T>,
) -> Result<(), io::ErrorKind>
    ensures ok { OnOk result (Appends (W.contents writer.old.inner)
        (W.contents writer.new.inner) (planar_bytes T.form (tables_of frame.now))) }
    ensures cause { IfErr result (λ kind. (writer.new.last_failure ≡ Some kind) ⊎ (kind ≡ WriteZero)) }
{
    match write_frame(writer, frame) {
        Ok(()) => Ok(()),
        Err(PlanarError::Write) => Err(writer.last_failure().unwrap()),
        Err(_) => Err(io::ErrorKind::WriteZero),
    }
}

/// Writes a frame through a buffered writer, and flushes it.
pub fn write_and_flush<T: Pixel, W: io::Write>(
    writer: &mut Counted<W>,
    frame: &Frame<T>,
) -> Result<(), PlanarError>
    ensures { OnOk result (Appends (W.contents writer.old.inner)
        (W.contents writer.new.inner) (planar_bytes T.form (tables_of frame.now))) }
{
    write_frame(writer, frame)?;
    writer.flush().map_err(|_| PlanarError::Write)
}

//! YUV4MPEG2 streams that are copied: first the header line, and then frame by frame.
ghost use Rattle.std.specs.Prelude.{◌≡◌, ◌++◌, ◌∷◌, [], true, codes, IfOk};
ghost use Rattle.std.specs.Io.KnownBytes.{Appends};
ghost use Rattle.v_frame.specs.Prelude.{tables_of};
ghost use Rattle.v_frame_planar.specs.Planar.{planar_bytes};
ghost use Rattle.v_frame_y4m.specs.Ascii.{line_feed};
ghost use Rattle.v_frame_y4m.specs.Header.{header_line};
ghost use Rattle.v_frame_y4m.specs.Streams.{ReadsFrame, ReadsHeader};

use std::alloc::Global;
use std::io;
use v_frame::frame::Frame;
use v_frame::pixel::Pixel;
use v_frame_planar::Counted;
use v_frame_y4m::{StreamHeader, Y4mError, read_frame, read_header, write_frame, write_header};

/// Copies the header line of a stream, and returns its contents. Its parameters are written in a fixed order.
pub fn copy_header<R: io::Read, W: io::Write>(
    alloc: Global,
    reader: &mut Counted<R>,
    writer: &mut Counted<W>,
) -> Result<StreamHeader, Y4mError>
    ensures read { IfOk result (ReadsHeader R.remaining reader.old reader.new) }
    ensures written { IfOk result (λ header. Appends (W.contents writer.old.inner)
        (W.contents writer.new.inner) (header_line header ++ line_feed ∷ [])) }
{
    let header = read_header(alloc, reader)?;
    write_header(alloc, writer, &header)?;
    Ok(header)
}

/// Copies a frame. Returns `false` if the stream was at its end.
pub fn copy_frame<T: Pixel, R: io::Read, W: io::Write>(
    alloc: Global,
    reader: &mut Counted<R>,
    writer: &mut Counted<W>,
    frame: &mut Frame<T>,
) -> Result<bool, Y4mError>
    ensures read { IfOk result (ReadsFrame R.remaining reader.old reader.new
        (planar_bytes T.form (tables_of frame.new))) }
    ensures written { IfOk result (λ more. more ≡ true → Appends (W.contents writer.old.inner)
        (W.contents writer.new.inner)
        (codes "FRAME" ++ line_feed ∷ planar_bytes T.form (tables_of frame.new))) }
{
    let more = read_frame(alloc, reader, frame)?;
    if more {
        write_frame(writer, frame)?;
    }
    Ok(more)
}

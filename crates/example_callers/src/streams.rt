//! Streams of frames as raw video without headers: copied, changed while they are copied, and read back.
ghost use Rattle.std.specs.Prelude.{◌≡◌, ◌<◌, ◌≤◌, IfOk, OnOk};
ghost use Rattle.std.specs.Io.KnownBytes.{IsAtEnd};
ghost use Rattle.v_frame.specs.Prelude.{one_byte, tables_of, KeepsBorders};
ghost use Rattle.v_frame_planar.specs.Planar.{planar_bytes, sizes_of};
ghost use Rattle.example_callers.specs.Streams.{brighter, Carries};

use crate::pictures::brighten;
use std::alloc::Global;
use std::io;
use v_frame::frame::Frame;
use v_frame::pixel::Pixel;
use v_frame_planar::laws::same_sizes_same_byte_count;
use v_frame_planar::{Counted, PlanarError, read_frame, write_frame};

/// Copies at most `most` frames from one stream to another, and returns their number. Each has the size of `frame`, which shows
/// the last of them afterwards.
pub fn copy_frames<T: Pixel, R: io::Read, W: io::Write>(
    alloc: Global,
    reader: &mut Counted<R>,
    writer: &mut Counted<W>,
    frame: &mut Frame<T>,
    most: u64,
) -> Result<u64, PlanarError>
    ensures carried { IfOk result (Carries T.form (sizes_of (tables_of frame.old)) (λ tables. tables)
        (R.remaining reader.old.inner) (R.remaining reader.new.inner)
        (W.contents writer.old.inner) (W.contents writer.new.inner)) }
    ensures most { IfOk result (λ count. count ≤ most) }
    ensures at_end { IfOk result (λ count. count < most → IsAtEnd (R.remaining reader.new.inner)) }
{
    for count in 0..most {
        if !read_frame(alloc, reader, frame)? {
            return Ok(count);
        }
        write_frame(writer, frame)?;
    }
    Ok(most)
}

/// Copies at most `most` frames as [`copy_frames`] does, and increases each luma pixel by `by`.
pub fn brighten_frames<R: io::Read, W: io::Write>(
    alloc: Global,
    reader: &mut Counted<R>,
    writer: &mut Counted<W>,
    frame: &mut Frame<u8>,
    by: u8,
    most: u64,
) -> Result<u64, PlanarError>
    ensures carried { IfOk result (Carries one_byte (sizes_of (tables_of frame.old)) (brighter by)
        (R.remaining reader.old.inner) (R.remaining reader.new.inner)
        (W.contents writer.old.inner) (W.contents writer.new.inner)) }
    ensures most { IfOk result (λ count. count ≤ most) }
    ensures at_end { IfOk result (λ count. count < most → IsAtEnd (R.remaining reader.new.inner)) }
{
    for done in 0..most {
        if !read_frame(alloc, reader, frame)? {
            return Ok(done);
        }
        brighten(alloc, frame, by)?;
        write_frame(writer, frame)?;
    }
    Ok(most)
}

/// Writes the visible pixels of `from` into memory, and reads them back into `to`. If the planes of both frames have equal
/// sizes, `to` shows the same pixels as `from` afterwards.
pub fn through_memory<T: Pixel>(
    alloc: Global,
    from: &Frame<T>,
    to: &mut Frame<T>,
) -> Result<(), PlanarError>
    ensures bytes { sizes_of (tables_of to.old) ≡ sizes_of (tables_of from.now)
        → OnOk result (planar_bytes T.form (tables_of to.new)
        ≡ planar_bytes T.form (tables_of from.now)) }
    ensures borders { KeepsBorders to.old to.new }
{
    same_sizes_same_byte_count(to, from);
    let bytes = bytes_of_frame(alloc, from)?;
    let mut reader = Counted::new(bytes.as_slice());
    read_frame(alloc, &mut reader, to)?;
    Ok(())
}

/// Returns the bytes as which a frame is written.
fn bytes_of_frame<T: Pixel>(alloc: Global, frame: &Frame<T>) -> Result<Vec<u8>, PlanarError>
    ensures { IfOk result (λ bytes. bytes.items ≡ planar_bytes T.form (tables_of frame.now)) }
{
    let mut writer = Counted::new(Vec::new(alloc));
    write_frame(&mut writer, frame)?;
    Ok(writer.into_inner())
}

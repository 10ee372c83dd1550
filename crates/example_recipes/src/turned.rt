//! A stream that is rotated clockwise by 90 degrees, and converted from 8 to 10 bits.
ghost use Rattle.std.specs.Prelude.{◌≡◌, All, None, option_map, IfSome};
ghost use Rattle.v_frame_y4m.specs.Color.{color_with, subsampling_of};
ghost use Rattle.v_frame_y4m.specs.Header.{IsPiece, IsWritable};
ghost use Rattle.example_recipes.specs.TurnedHeader.{turned_header, turned_ratio, without_format};

use crate::deepen::{DeepenError, turn_and_deepen};
use std::alloc::Global;
use std::io;
use thiserror::Error;
use v_frame::frame::FrameError;
use v_frame::sequence::Sequence;
use v_frame_planar::{Counted, video_frame};
use v_frame_turn::{Turn, TurnError, frames};
use v_frame_y4m::{
    Color, Ratio, StreamHeader, Y4mError, read_frame, read_header, write_frame, write_header,
};

/// Returns the header of a stream whose pictures are rotated by 90 degrees and have 10 bits, or `None` if the chroma format has
/// no 10-bit variant. Use it only for progressive video: the fields of interlaced video would become columns.
pub fn turned_header(header: StreamHeader) -> Option<StreamHeader>
    requires { IsWritable header }
    ensures value { result ≡ option_map (turned_header header)
        (color_with (subsampling_of header.color) 10 None) }
    ensures writable { IfSome result IsWritable }
{
    let color = Color::new(header.color.subsampling(), 10, None)?;
    Some(StreamHeader {
        width: header.height,
        height: header.width,
        frame_rate: header.frame_rate,
        interlacing: header.interlacing,
        pixel_aspect: header.pixel_aspect.map(turned_ratio),
        color,
        extensions: without_format(header.extensions),
    })
}

/// Returns the ratio with its numerator and denominator exchanged.
fn turned_ratio(ratio: Ratio) -> Ratio
    ensures { result ≡ turned_ratio ratio }
{
    Ratio {
        numerator: ratio.denominator,
        denominator: ratio.numerator,
    }
}

/// Removes `XYSCSS=..`, in which ffmpeg repeats the chroma format.
fn without_format(extensions: Sequence<Sequence<u8>>) -> Sequence<Sequence<u8>>
    ensures kept { result ≡ without_format extensions }
    ensures pieces { All IsPiece extensions → All IsPiece result }
{
    let mut kept = extensions.into_vec();
    kept.retain(|extension| !extension.as_slice().starts_with(b"YSCSS="));
    Sequence::from(kept)
}

/// The reason why a stream was not rotated to its end.
#[derive(Debug, Drop, Error)]
pub enum TurnedError {
    /// A header or a frame could not be read or written.
    #[error(transparent)]
    Stream(#[from] Y4mError),
    /// The pixels do not have 8 bits, or no frame of the stream's size can be built.
    #[error("no frame of 8 bits: {0}")]
    Frame(#[from] FrameError),
    /// The chroma planes cannot be rotated by 90 degrees.
    #[error(transparent)]
    Turn(#[from] TurnError),
    /// There is no 10-bit variant of the chroma format.
    #[error("no y4m stream of 10 bits has this chroma format")]
    Format,
    /// A frame could not be rotated and converted.
    #[error(transparent)]
    Deepen(#[from] DeepenError),
}

/// Rotates a stream of 8 bits clockwise by 90 degrees, and writes it with 10 bits. If the stream cannot be rotated, nothing is
/// written.
pub fn turn_stream<R: io::Read, W: io::Write>(
    alloc: Global,
    reader: &mut Counted<R>,
    writer: &mut Counted<W>,
) -> Result<(), TurnedError> {
    let header = read_header(alloc, reader)?;
    let subsampling = header.color.subsampling();
    let mut source = header.frame::<u8>(alloc, 0)?;
    let header = turned_header(header).ok_or(TurnedError::Format)?;
    let mut between = video_frame::<u8>(alloc, header.width, header.height, subsampling, 8, 0)?;
    let mut target = header.frame::<u16>(alloc, 0)?;
    frames::check_turn(&source, &between, Turn::Rotate90)?;
    write_header(alloc, writer, &header)?;
    for _ in 0..u64::MAX {
        if !read_frame(alloc, reader, &mut source)? {
            break;
        }
        turn_and_deepen(&source, &mut between, &mut target)?;
        write_frame(writer, &target)?;
    }
    Ok(())
}

//! Plans a copy: the header of the output and the edit of each frame, checked before anything is written.
ghost use Rattle.std.specs.Prelude.{◌≡◌, IfOk};
ghost use Rattle.v_frame_streams.specs.Copies.{copied_extensions, copied_header, edit_of as made_by, or_else as or_else_of, taken, without_format};
ghost use Rattle.v_frame_streams.specs.Edits.{halved_size};

use crate::colors::is_same_color;
use crate::edit::Edit;
use crate::options::CopyOptions;
use std::alloc::{AllocError, Global};
use v_frame::sequence::Sequence;
use v_frame_formats::Rectangle;
use v_frame_y4m::{Ratio, StreamHeader};

/// Returns the rectangle that a copy keeps of each picture of a stream.
pub(crate) fn rectangle_of(options: &CopyOptions, header: &StreamHeader) -> Rectangle
    ensures { result ≡ taken options.now header.now }
{
    let whole = Rectangle {
        x: 0,
        y: 0,
        width: header.width,
        height: header.height,
    };
    options.crop.unwrap_or(whole)
}

/// Returns the edit that a copy applies to each frame of a stream.
pub(crate) fn edit_of(options: &CopyOptions, header: &StreamHeader) -> Edit
    ensures { result ≡ made_by options.now header.now }
{
    Edit::new(
        rectangle_of(options, header),
        header.color.subsampling(),
        options.half,
    )
}

/// Returns the header that a copy writes. `header` is the header of the source.
pub(crate) fn header_of(
    alloc: Global,
    options: &CopyOptions,
    header: &StreamHeader,
) -> Result<StreamHeader, AllocError>
    ensures { IfOk result (λ made. made ≡ copied_header options.now header.now) }
{
    let part = rectangle_of(options, header);
    Ok(StreamHeader {
        width: size_of(part.width, options.half),
        height: size_of(part.height, options.half),
        frame_rate: or_else(options.frame_rate, header.frame_rate),
        interlacing: header.interlacing,
        pixel_aspect: or_else(options.pixel_aspect, header.pixel_aspect),
        color: options.color(header.color),
        extensions: extensions_of(alloc, options, header)?,
    })
}

/// Returns the number of columns or rows of the output for `size` columns or rows: half of them, rounded up, if `half` is set.
fn size_of(size: usize, half: bool) -> usize
    ensures { result ≡ halved_size half size }
{
    if half { size.div_ceil(2) } else { size }
}

/// Returns the requested ratio if there is one, and the ratio of the source otherwise.
fn or_else(asked: Option<Ratio>, there: Option<Ratio>) -> Option<Ratio>
    ensures { result ≡ or_else_of asked there }
{
    match asked {
        Some(ratio) => Some(ratio),
        None => there,
    }
}

/// Returns the extensions that a copy writes in its header. If the copy changes the color, extensions that state the chroma
/// format are left out.
fn extensions_of(
    alloc: Global,
    options: &CopyOptions,
    header: &StreamHeader,
) -> Result<Sequence<Sequence<u8>>, AllocError>
    ensures { IfOk result (λ made. made ≡ copied_extensions options.now header.now) }
{
    let extensions = copy_of(alloc, header.extensions.as_slice())?;
    if is_same_color(options.color(header.color), header.color) {
        return Ok(extensions);
    }
    Ok(leave_out_format(extensions))
}

/// Removes extensions that repeat the chroma format, such as `XYSCSS=420JPEG`, which ffmpeg writes.
fn leave_out_format(extensions: Sequence<Sequence<u8>>) -> Sequence<Sequence<u8>>
    ensures { result ≡ without_format extensions }
{
    let mut kept = extensions.into_vec();
    kept.retain(|extension| !extension.as_slice().starts_with(b"YSCSS="));
    Sequence::from(kept)
}

/// Returns a copy of the texts.
fn copy_of(alloc: Global, texts: &[Sequence<u8>]) -> Result<Sequence<Sequence<u8>>, AllocError>
    ensures { IfOk result (λ copy. copy ≡ texts.now) }
{
    let mut copy = Vec::new(alloc);
    for text in texts {
        copy.push(Sequence::from_slice(alloc, text.as_slice())?)?;
    }
    Ok(copy.into())
}

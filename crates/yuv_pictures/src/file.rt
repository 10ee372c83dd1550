//! Begins and ends PNG files.
ghost use Rattle.std.specs.Prelude.{◌≡◌, [], ℕ, List, Option, true, IfErr, IfOk, OnOk};
ghost use Rattle.v_frame_png.specs.Prelude.{row_size, AcceptsRows, HasDrawn, HasFile, IsSize};
ghost use Rattle.yuv_pictures.specs.Planes.{IsPictureSize, picture_header};
ghost use Rattle.yuv_pictures.specs.Refusals.{trouble_of, IsTrouble, RefusesSize};

use crate::error::PictureError;
use std::alloc::Global;
use std::io;
use v_frame_png::{ColorSpace, Compression, Header, PngError, PngWriter, Samples};

/// Returns the header of a picture. It states no color space.
///
/// # Errors
///
/// [`PictureError::TooLarge`] if `width` or `height` is above 2^31 - 1.
pub(crate) fn header_of(
    width: usize,
    height: usize,
    samples: Samples,
) -> Result<Header, PictureError>
    ensures header { IfOk result (λ header. header ≡ picture_header width height samples) }
    ensures accepted { OnOk result (IsPictureSize width height) }
    ensures error { IfErr result (RefusesSize width height) }
{
    if width >= 0x8000_0000 || height >= 0x8000_0000 {
        return Err(PictureError::TooLarge { width, height });
    }
    Ok(Header {
        width: width as u32,
        height: height as u32,
        samples,
        color_space: ColorSpace::Unnamed,
    })
}

/// Begins a file.
///
/// # Errors
///
/// [`PictureError::Png`] if a write failed or wrote no bytes, and [`PictureError::OutOfMemory`].
pub(crate) fn begin<W: io::Write + Drop>(
    alloc: Global,
    out: W,
    header: Header,
) -> Result<PngWriter<W>, PictureError>
    requires { IsSize header }
    ensures drawn { IfOk result (λ png. HasDrawn W.contents (W.contents out) png []) }
    ensures header { IfOk result (λ png. png.header ≡ header) }
    ensures ready { IfOk result (λ png. AcceptsRows png (row_size header) header.height) }
    ensures error { IfErr result (λ e. e ≡ PictureError.OutOfMemory) }
{
    match PngWriter::with_compression(alloc, out, header, Compression::Fixed) {
        Ok(png) => Ok(png),
        Err(_) => Err(PictureError::OutOfMemory),
    }
}

/// Ends a file of which all rows are written, and returns the writer.
///
/// # Errors
///
/// [`PictureError::Png`] if a write failed or wrote no bytes, and [`PictureError::OutOfMemory`].
pub(crate) fn end<W: io::Write + Drop>(mut png: PngWriter<W>) -> Result<W, PictureError>
    requires is_open { png.is_open ≡ true }
    requires left { png.rows_left ≡ 0 }
    ensures file { (start : Option (List ℕ)) (rows : List (List ℕ))
        → HasDrawn W.contents start png rows
        → IfOk result (λ out. HasFile W.contents start out png.header rows) }
    ensures error { IfErr result IsTrouble }
{
    match png.finish() {
        Ok(()) => Ok(png.into_inner()),
        Err(error) => Err(trouble(error)),
    }
}

/// Returns the error for a failed write or a failed allocation.
pub(crate) fn trouble(error: PngError) -> PictureError
    ensures { result ≡ trouble_of error }
{
    match error {
        PngError::OutOfMemory => PictureError::OutOfMemory,
        error => PictureError::Png(error),
    }
}

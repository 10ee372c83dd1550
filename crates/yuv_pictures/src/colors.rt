//! Pictures of the colors of a frame.
ghost use Rattle.std.specs.Prelude.{◌≡◌, ◌*◌, ◌<◌, Some, length, slice_get, IfErr, IfOk, OnOk};
ghost use Rattle.std.specs.Int.NonZero.{non_zero_u8_get};
ghost use Rattle.v_frame.specs.Prelude.{height_of, table_of, width_of};
ghost use Rattle.v_frame_png.specs.Prelude.{HasFile};
ghost use Rattle.v_frame_rgb.specs.Prelude.{exact_color_rows};
ghost use Rattle.yuv_pictures.specs.Colors.{frame_colors, frame_rows, frame_samples, has_chroma, rgb_bytes};
ghost use Rattle.yuv_pictures.specs.FullChroma.{IsFullFrame, ShowsFullChroma};
ghost use Rattle.yuv_pictures.specs.Planes.{picture_header, IsPictureSize};
ghost use Rattle.yuv_pictures.specs.Refusals.{AcceptsColors, AcceptsFrame, IsSound, IsTrouble, StopsColors, StopsFrame, StopsFullChroma};

use crate::error::PictureError;
use crate::file::{begin, end, header_of, trouble};
use crate::gray::write_gray;
use std::alloc::Global;
use std::io;
use v_frame::chroma::ChromaSubsampling;
use v_frame::frame::Frame;
use v_frame::pixel::Pixel;
use v_frame::plane::{Plane, RowsRef};
use v_frame_convert::{convert_frame, frames_fit};
use v_frame_png::{Header, Samples};
use v_frame_rgb::{ColorRange, ExactMatrix, Rgb, Standard, rows};

/// The way in which the colors of a frame are calculated.
#[derive(Debug, Clone, Copy, PartialEq, Eq)]
pub struct Colors {
    /// The standard by which Y'CbCr is converted to R'G'B'.
    pub standard: Standard,
    /// The range of the samples: the values that represent black and white.
    pub range: ColorRange,
}

/// Writes the colors of a frame as RGB with 8 bits for each channel, and returns the writer.
///
/// Each chroma pixel is repeated for the luma pixels that it belongs to, as `convert_frame` of `v_frame_convert` does. Colors are
/// calculated from samples of the frame's bit depth, and rounded once. If one chroma plane is missing, it counts as neutral. A
/// frame without chroma is written in gray, as [`write_plane_picture`](crate::write_plane_picture) writes its luma: with
/// unchanged samples, regardless of `colors`.
///
/// # Errors
///
/// The writer is dropped if an error is returned:
///
/// - [`PictureError::TooLarge`] if the width or the height is above 2^31 - 1.
/// - [`PictureError::Layout`] if a chroma plane does not have the size that the format of the frame requires, or if the type of
///   pixels does not fit the bit depth.
/// - [`PictureError::Png`] if a write failed or wrote no bytes.
/// - [`PictureError::OutOfMemory`] if there is not enough memory.
pub fn write_frame_picture<T: Pixel, W: io::Write + Drop>(
    alloc: Global,
    out: W,
    frame: &Frame<T>,
    colors: Colors,
) -> Result<W, PictureError>
    ensures file { IfOk result (λ new. HasFile W.contents (W.contents out) new
        (picture_header frame.now.y_plane.geometry.width frame.now.y_plane.geometry.height
        (frame_samples frame.now))
        (frame_rows T.form frame.now colors)) }
    ensures accepted { OnOk result (AcceptsFrame T.BYTES frame.now) }
    ensures error { IfErr result (StopsFrame T.BYTES frame.now) }
{
    if has_chroma(frame) {
        write_colors(alloc, out, frame, colors)
    } else {
        let depth = frame.bit_depth.get();
        write_gray(alloc, out, &frame.y_plane.as_plane_ref(), depth)
    }
}

/// Returns whether the frame has at least one chroma plane.
fn has_chroma<T: Pixel>(frame: &Frame<T>) -> bool
    ensures { result ≡ has_chroma frame.now }
{
    frame.u_plane.is_some() || frame.v_plane.is_some()
}

/// Writes the colors of a frame. A missing chroma plane counts as neutral.
fn write_colors<T: Pixel, W: io::Write + Drop>(
    alloc: Global,
    out: W,
    frame: &Frame<T>,
    colors: Colors,
) -> Result<W, PictureError>
    ensures file { IfOk result (λ new. HasFile W.contents (W.contents out) new
        (picture_header frame.now.y_plane.geometry.width frame.now.y_plane.geometry.height
        Samples.Rgb8)
        (frame_colors T.form frame.now colors)) }
    ensures accepted { OnOk result (AcceptsColors T.BYTES frame.now) }
    ensures error { IfErr result (StopsColors T.BYTES frame.now) }
{
    let (width, height) = (frame.y_plane.width(), frame.y_plane.height());
    let header = header_of(width, height, Samples::Rgb8)?;
    let shown = with_full_chroma(alloc, frame)?;
    let matrix = ExactMatrix::new(colors.standard, colors.range, frame.bit_depth.get());
    match (&shown.u_plane, &shown.v_plane) {
        (Some(u), Some(v)) => { write_planes(alloc, out, header, &shown.y_plane, u, v, &matrix) }
        _ => unreachable!(),
    }
}

/// Returns a frame with the same contents and a chroma pixel for each luma pixel.
///
/// # Errors
///
/// [`PictureError::Layout`] if the planes do not fit the format and the bit depth of the frame, and
/// [`PictureError::OutOfMemory`].
fn with_full_chroma<T: Pixel>(alloc: Global, frame: &Frame<T>) -> Result<Frame<T>, PictureError>
    ensures shown { IfOk result (ShowsFullChroma T.form frame.now) }
    ensures accepted { OnOk result (IsSound T.BYTES frame.now) }
    ensures error { IfErr result (StopsFullChroma T.BYTES frame.now) }
{
    let mut shown = full_frame(alloc, frame)?;
    if !frames_fit(frame, &shown) {
        return Err(PictureError::Layout);
    }
    convert_frame(frame, &mut shown);
    Ok(shown)
}

/// Returns a blank frame with the size and the bit depth of `like`, and with chroma planes as large as luma.
fn full_frame<T: Pixel>(alloc: Global, like: &Frame<T>) -> Result<Frame<T>, PictureError>
    ensures full { IfOk result (IsFullFrame like.now.y_plane.geometry.width
        like.now.y_plane.geometry.height (non_zero_u8_get like.now.bit_depth)) }
    ensures error { IfErr result (λ e. e ≡ PictureError.OutOfMemory) }
{
    let geometry = like.y_plane.geometry();
    Ok(Frame {
        y_plane: Plane::new(alloc, geometry)?,
        u_plane: Some(Plane::new(alloc, geometry)?),
        v_plane: Some(Plane::new(alloc, geometry)?),
        subsampling: ChromaSubsampling::Yuv444,
        bit_depth: like.bit_depth,
    })
}

/// Writes the colors of three planes of the same size, and returns the writer.
fn write_planes<T: Pixel, W: io::Write + Drop>(
    alloc: Global,
    out: W,
    header: Header,
    y: &Plane<T>,
    u: &Plane<T>,
    v: &Plane<T>,
    matrix: &ExactMatrix,
) -> Result<W, PictureError>
    requires header { header
        ≡ picture_header y.now.geometry.width y.now.geometry.height Samples.Rgb8 }
    requires size { IsPictureSize y.now.geometry.width y.now.geometry.height }
    requires u_wide { u.now.geometry.width ≡ y.now.geometry.width }
    requires u_high { u.now.geometry.height ≡ y.now.geometry.height }
    requires v_wide { v.now.geometry.width ≡ y.now.geometry.width }
    requires v_high { v.now.geometry.height ≡ y.now.geometry.height }
    ensures file { IfOk result (λ new. HasFile W.contents (W.contents out) new header
        (exact_color_rows matrix.now.standard matrix.now.range matrix.now.depth T.form rgb_bytes
        (table_of y.now) (table_of u.now) (table_of v.now))) }
    ensures error { IfErr result IsTrouble }
{
    let y = y.as_plane_ref().as_rows_ref();
    let (u, v) = (
        u.as_plane_ref().as_rows_ref(),
        v.as_plane_ref().as_rows_ref(),
    );
    write_color_rows(alloc, out, header, &y, &u, &v, matrix)
}

/// Writes the colors of luma and chroma planes of the same size, row by row, and returns the writer.
fn write_color_rows<T: Pixel, W: io::Write + Drop>(
    alloc: Global,
    out: W,
    header: Header,
    y: &RowsRef<'_, T>,
    u: &RowsRef<'_, T>,
    v: &RowsRef<'_, T>,
    matrix: &ExactMatrix,
) -> Result<W, PictureError>
    requires header { header ≡ picture_header (width_of y.now) (height_of y.now) Samples.Rgb8 }
    requires size { IsPictureSize (width_of y.now) (height_of y.now) }
    requires u_wide { width_of u.now ≡ width_of y.now }
    requires u_high { height_of u.now ≡ height_of y.now }
    requires v_wide { width_of v.now ≡ width_of y.now }
    requires v_high { height_of v.now ≡ height_of y.now }
    ensures file { IfOk result (λ new. HasFile W.contents (W.contents out) new header
        (exact_color_rows matrix.now.standard matrix.now.range matrix.now.depth T.form rgb_bytes
        y.now u.now v.now)) }
    ensures error { IfErr result IsTrouble }
{
    let height = y.height();
    // The width is positive, because rows are never empty.
    let _width = y.width();
    let mut line = vec![in alloc; 0; header.row_size()]?;
    let mut png = begin(alloc, out, header)?;
    for k in 0..height {
        make_color_row(&mut line, y, u, v, k, matrix);
        if let Err(error) = png.write_row(&line) {
            return Err(trouble(error));
        }
    }
    end(png)
}

/// Fills `line` with the colors of row `k` of luma and chroma planes of the same size.
fn make_color_row<T: Pixel>(
    line: &mut [u8],
    y: &RowsRef<'_, T>,
    u: &RowsRef<'_, T>,
    v: &RowsRef<'_, T>,
    k: usize,
    matrix: &ExactMatrix,
)
    requires size { length line.old ≡ 3 * width_of y.now }
    requires there { k < height_of y.now }
    requires u_wide { width_of u.now ≡ width_of y.now }
    requires u_high { height_of u.now ≡ height_of y.now }
    requires v_wide { width_of v.now ≡ width_of y.now }
    requires v_high { height_of v.now ≡ height_of y.now }
    ensures { slice_get (exact_color_rows matrix.now.standard matrix.now.range matrix.now.depth
        T.form rgb_bytes y.now u.now v.now) k ≡ Some line.new }
{
    let (width, size) = (y.width(), line.len());
    // The three rows exist, and are as wide as the picture.
    let _y_row = y.visible_row(k);
    let _u_row = u.visible_row(k);
    let _v_row = v.visible_row(k);
    let luma = y.visible_region(0, k, width, 1);
    let (blue, red) = (
        u.visible_region(0, k, width, 1),
        v.visible_region(0, k, width, 1),
    );
    rows::yuv444_to_rgb_exactly::<T, Rgb>(&luma, &blue, &red, line, size, 1, size, matrix);
}

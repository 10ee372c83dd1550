//! Pictures of planes in gray.
ghost use Rattle.std.specs.Prelude.{◌≡◌, map, IfErr, IfOk, IfSome, MatchOption, OnOk};
ghost use Rattle.std.specs.Int.NonZero.{non_zero_u8_get};
ghost use Rattle.v_frame.specs.Prelude.{table_of};
ghost use Rattle.v_frame_convert.specs.Prelude.{DepthFits};
ghost use Rattle.v_frame_png.specs.Prelude.{HasFile, big_endian};
ghost use Rattle.yuv_pictures.specs.Gray.{gray_rows, gray_samples, samples_at};
ghost use Rattle.yuv_pictures.specs.Planes.{picture_header, plane_named, IsPictureSize};
ghost use Rattle.yuv_pictures.specs.Refusals.{AcceptsGray, IsTrouble, StopsGray};

use crate::error::PictureError;
use crate::file::{begin, end, header_of, trouble};
use std::alloc::Global;
use std::io;
use v_frame::frame::Frame;
use v_frame::pixel::Pixel;
use v_frame::plane::{Plane, PlaneRef};
use v_frame_convert::{convert_depth, depth_fits};
use v_frame_formats::Component;
use v_frame_png::{Header, Samples};

/// Writes the plane `plane` of a frame in gray, and returns the writer. The picture has 8 bits for each sample, or 16 if the
/// frame has a depth above 8. Samples of 9 to 15 bits are shifted left to 16 bits.
///
/// # Errors
///
/// The writer is dropped if an error is returned:
///
/// - [`PictureError::NoPlane`] if the frame does not have this plane.
/// - [`PictureError::TooLarge`] if the width or the height of the plane is above 2^31 - 1.
/// - [`PictureError::Layout`] if the type of pixels does not fit the bit depth of the frame.
/// - [`PictureError::Png`] if a write failed or wrote no bytes.
/// - [`PictureError::OutOfMemory`] if there is not enough memory.
pub fn write_plane_picture<T: Pixel, W: io::Write + Drop>(
    alloc: Global,
    out: W,
    frame: &Frame<T>,
    plane: Component,
) -> Result<W, PictureError>
    ensures file { IfSome (plane_named frame.now plane) (λ shown.
        let depth = non_zero_u8_get frame.now.bit_depth in
        IfOk result (λ new. HasFile W.contents (W.contents out) new
        (picture_header shown.geometry.width shown.geometry.height (gray_samples depth))
        (gray_rows T.form depth (table_of shown)))) }
    ensures accepted { OnOk result (MatchOption (plane_named frame.now plane) ⊥
        (λ shown. AcceptsGray T.BYTES (non_zero_u8_get frame.now.bit_depth) shown.geometry.width
        shown.geometry.height)) }
    ensures error { IfErr result (λ e. MatchOption (plane_named frame.now plane)
        (e ≡ PictureError.NoPlane)
        (λ shown. StopsGray T.BYTES (non_zero_u8_get frame.now.bit_depth) shown.geometry.width
        shown.geometry.height e)) }
{
    match frame.plane(plane.index()) {
        Some(plane) => write_gray(alloc, out, &plane.as_plane_ref(), frame.bit_depth.get()),
        None => Err(PictureError::NoPlane),
    }
}

/// Writes a plane with the bit depth `depth` in gray, and returns the writer.
///
/// # Errors
///
/// The errors of [`write_plane_picture`], except for [`PictureError::NoPlane`].
pub(crate) fn write_gray<T: Pixel, W: io::Write + Drop>(
    alloc: Global,
    out: W,
    plane: &PlaneRef<'_, T>,
    depth: u8,
) -> Result<W, PictureError>
    ensures file { IfOk result (λ new. HasFile W.contents (W.contents out) new
        (picture_header plane.now.geometry.width plane.now.geometry.height (gray_samples depth))
        (gray_rows T.form depth (table_of plane.now))) }
    ensures accepted { OnOk result (AcceptsGray T.BYTES depth plane.now.geometry.width
        plane.now.geometry.height) }
    ensures error { IfErr result (StopsGray T.BYTES depth plane.now.geometry.width
        plane.now.geometry.height) }
{
    let samples = if depth == 8 {
        Samples::Gray8
    } else {
        Samples::Gray16
    };
    let header = header_of(plane.width(), plane.height(), samples)?;
    if !depth_fits::<T>(depth) {
        return Err(PictureError::Layout);
    }
    if depth == 8 {
        write_gray8(alloc, out, header, plane)
    } else {
        write_gray16(alloc, out, header, plane, depth)
    }
}

/// Writes a plane with a depth of 8 bits.
fn write_gray8<T: Pixel, W: io::Write + Drop>(
    alloc: Global,
    out: W,
    header: Header,
    plane: &PlaneRef<'_, T>,
) -> Result<W, PictureError>
    requires header { header
        ≡ picture_header plane.now.geometry.width plane.now.geometry.height Samples.Gray8 }
    requires size { IsPictureSize plane.now.geometry.width plane.now.geometry.height }
    requires depth { DepthFits T.BYTES 8 }
    ensures file { IfOk result (λ new. HasFile W.contents (W.contents out) new header
        (samples_at T.form 8 8 (table_of plane.now))) }
    ensures error { IfErr result IsTrouble }
{
    let mut gray: Plane<u8> = Plane::new(alloc, plane.geometry())?;
    convert_depth(plane, &mut gray, 8, 8);
    let mut png = begin(alloc, out, header)?;
    match png.write_plane(&gray.as_plane_ref()) {
        Ok(()) => end(png),
        Err(error) => Err(trouble(error)),
    }
}

/// Writes a plane with another depth, in 16 bits.
fn write_gray16<T: Pixel, W: io::Write + Drop>(
    alloc: Global,
    out: W,
    header: Header,
    plane: &PlaneRef<'_, T>,
    depth: u8,
) -> Result<W, PictureError>
    requires header { header
        ≡ picture_header plane.now.geometry.width plane.now.geometry.height Samples.Gray16 }
    requires size { IsPictureSize plane.now.geometry.width plane.now.geometry.height }
    requires depth { DepthFits T.BYTES depth }
    ensures file { IfOk result (λ new. HasFile W.contents (W.contents out) new header
        (map big_endian (samples_at T.form depth 16 (table_of plane.now)))) }
    ensures error { IfErr result IsTrouble }
{
    let mut gray: Plane<u16> = Plane::new(alloc, plane.geometry())?;
    convert_depth(plane, &mut gray, depth, 16);
    let mut png = begin(alloc, out, header)?;
    match png.write_plane_u16(alloc, &gray.as_plane_ref()) {
        Ok(()) => end(png),
        Err(error) => Err(trouble(error)),
    }
}

//! Pictures of the difference of two frames.
ghost use Rattle.std.specs.Prelude.{◌≡◌, ◌↔◌, IfErr, IfOk, IsTrue, OnOk};
ghost use Rattle.std.specs.Int.NonZero.{non_zero_u8_get};
ghost use Rattle.v_frame_png.specs.Prelude.{HasFile};
ghost use Rattle.yuv_pictures.specs.Differences.{difference_rows};
ghost use Rattle.yuv_pictures.specs.Gray.{gray_samples};
ghost use Rattle.yuv_pictures.specs.Planes.{picture_header};
ghost use Rattle.yuv_pictures.specs.Refusals.{AcceptsDifference, AreAlike, StopsDifference};

use crate::error::PictureError;
use crate::gray::write_gray;
use std::alloc::Global;
use std::io;
use v_frame::frame::Frame;
use v_frame::pixel::Pixel;
use v_frame_convert::depth_fits;
use v_frame_ops::difference;

/// Writes the differences of the luma of two frames in gray, and returns the writer. Each difference is multiplied by `gain`, and
/// limited to the greatest value of the bit depth. Equal samples are black. The picture has 8 bits for each sample, or 16 if the
/// frames have a depth above 8.
///
/// # Errors
///
/// The writer is dropped if an error is returned:
///
/// - [`PictureError::Unlike`] if the luma planes have different sizes or the frames have different bit depths.
/// - [`PictureError::TooLarge`] if the width or the height is above 2^31 - 1.
/// - [`PictureError::Layout`] if the type of pixels does not fit the bit depth.
/// - [`PictureError::Png`] if a write failed or wrote no bytes.
/// - [`PictureError::OutOfMemory`] if there is not enough memory.
pub fn write_difference_picture<T: Pixel, W: io::Write + Drop>(
    alloc: Global,
    out: W,
    first: &Frame<T>,
    second: &Frame<T>,
    gain: u16,
) -> Result<W, PictureError>
    ensures file { IfOk result (λ new. HasFile W.contents (W.contents out) new
        (picture_header first.now.y_plane.geometry.width first.now.y_plane.geometry.height
        (gray_samples (non_zero_u8_get first.now.bit_depth)))
        (difference_rows T.form first.now second.now gain)) }
    ensures accepted { OnOk result (AcceptsDifference T.BYTES first.now second.now) }
    ensures error { IfErr result (StopsDifference T.BYTES first.now second.now) }
{
    if !are_alike(first, second) {
        return Err(PictureError::Unlike);
    }
    let depth = first.bit_depth.get();
    if !depth_fits::<T>(depth) {
        return Err(PictureError::Layout);
    }
    let mut plane = first.y_plane.clone(alloc)?;
    difference(&second.y_plane.as_plane_ref(), &mut plane, gain, depth);
    write_gray(alloc, out, &plane.as_plane_ref(), depth)
}

/// Returns whether the luma planes of two frames have the same size, and the frames the same bit depth.
fn are_alike<T: Pixel>(first: &Frame<T>, second: &Frame<T>) -> bool
    ensures { IsTrue result ↔ AreAlike first.now second.now }
{
    second.y_plane.width() == first.y_plane.width()
        && second.y_plane.height() == first.y_plane.height()
        && second.bit_depth.get() == first.bit_depth.get()
}

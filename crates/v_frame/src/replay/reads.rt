//! The calls that read a size, a row or a pixel.
ghost use Rattle.std.specs.Prelude.{◌≡◌, IfOk, length, slice_get};
ghost use Rattle.v_frame_raster.specs.Pixel.{byte_list};
ghost use Rattle.v_frame_raster.specs.Table.{pixel_at, row_major};
ghost use Rattle.v_frame_raster.specs.Raster.{table_of};
ghost use Rattle.v_frame.specs.Replay.{answer_of_pixel};
ghost use Rattle.v_frame.specs.Walk.{draws_answer};
ghost use Rattle.v_frame.specs.declared.replay.answer.Answer.TheVariants.{RowShown, RowsWalked, PixelsWalked, BytesWalked};

use super::answer::Answer;
use super::draw::Side;
use super::walk::walked;
use crate::pixel::Pixel;
use crate::plane::Plane;
use crate::sequence::Sequence;
use std::alloc::{AllocError, Global};

/// Returns a copy of row `y`.
pub(crate) fn row_shown<T: Copy>(
    alloc: Global,
    plane: &Plane<T>,
    y: usize,
) -> Result<Answer<T>, AllocError>
    ensures { IfOk result (λ answer. answer ≡ RowShown (slice_get (table_of plane.now) y)) }
{
    let row = Sequence::from_option(alloc, plane.row(y))?;
    Ok(Answer::RowShown(row))
}

/// Returns the pixel in column `x` of row `y`, if it lies inside the visible rectangle.
pub(crate) fn pixel_shown<T: Pixel>(plane: &Plane<T>, x: usize, y: usize) -> Answer<T>
    ensures { result ≡ answer_of_pixel (pixel_at (table_of plane.now) x y) }
{
    if x >= plane.width() || y >= plane.height() {
        return Answer::OutsideRectangle;
    }
    match plane.pixel(x, y) {
        Some(pixel) => Answer::PixelShown(pixel),
        None => Answer::OutsideRectangle,
    }
}

/// Returns copies of the rows that are taken from the given sides.
pub(crate) fn rows_walked<T: Copy>(
    alloc: Global,
    plane: &Plane<T>,
    draws: &[Side],
) -> Result<Answer<T>, AllocError>
    ensures { let rows = table_of plane.now in IfOk result (λ answer.
        answer ≡ RowsWalked (length rows) (draws_answer rows draws.now)) }
{
    let (total, drawn) = walked(alloc, &mut plane.rows(), draws)?;
    Ok(Answer::RowsWalked { total, drawn })
}

/// Returns the pixels that are taken from the given sides.
pub(crate) fn pixels_walked<T: Pixel>(
    alloc: Global,
    plane: &Plane<T>,
    draws: &[Side],
) -> Result<Answer<T>, AllocError>
    ensures { let pixels = row_major (table_of plane.now) in IfOk result (λ answer.
        answer ≡ PixelsWalked (length pixels) (draws_answer pixels draws.now)) }
{
    let (total, drawn) = walked(alloc, &mut plane.pixels(), draws)?;
    Ok(Answer::PixelsWalked { total, drawn })
}

/// Returns the bytes that are taken from the given sides.
pub(crate) fn bytes_walked<T: Pixel>(
    alloc: Global,
    plane: &Plane<T>,
    draws: &[Side],
) -> Result<Answer<T>, AllocError>
    ensures { let bytes = byte_list T.form (table_of plane.now) in IfOk result (λ answer.
        answer ≡ BytesWalked (length bytes) (draws_answer bytes draws.now)) }
{
    let (total, drawn) = walked(alloc, &mut plane.byte_data(), draws)?;
    Ok(Answer::BytesWalked { total, drawn })
}

//! The calls that write pixels: one pixel by its column and row, or the pixels that an iterator yields.
ghost use Rattle.std.specs.Prelude.{◌≡◌, [], ◌∷◌, length, map, IfOk, OnOk, OnErr};
ghost use Rattle.v_frame_raster.specs.Table.{pixel_at, row_major, with_pixel};
ghost use Rattle.v_frame_raster.specs.Raster.{KeepsBorder, table_of};
ghost use Rattle.std.specs.Borrow.{sem};
ghost use Rattle.v_frame_plane.specs.PixelsLeft.{pixels_left};
ghost use Rattle.v_frame.specs.DrawnItems.{PutsPixelsBack};
ghost use Rattle.v_frame.specs.Replay.{answer_of_pixel};
ghost use Rattle.v_frame.specs.Walk.{draws_answer, remaining_after, pixel_written, side_of_pixel, pixels_written};
ghost use Rattle.v_frame.specs.declared.replay.answer.Answer.TheVariants.{PixelsWalked};

use super::answer::Answer;
use super::draw::{Draw, PixelDraw, Side};
use super::walk::walked;
use crate::pixel::Pixel;
use crate::plane::{PixelsMut, Plane};
use std::alloc::{AllocError, Global};
use std::mem;
use v_frame_plane::laws::dropped_pixels_keep_their_values;

/// Replaces the pixel in column `x` of row `y`, if it lies inside the visible rectangle, and returns the pixel before the
/// write.
pub(crate) fn replay_pixel_mut<T: Copy>(
    plane: &mut Plane<T>,
    x: usize,
    y: usize,
    value: T,
) -> Answer<T>
    ensures answer { result ≡ answer_of_pixel (pixel_at (table_of plane.old) x y) }
    ensures table { table_of plane.new ≡ with_pixel (table_of plane.old) x y value }
    ensures border { KeepsBorder plane.old plane.new }
{
    if x >= plane.width() || y >= plane.height() {
        return Answer::OutsideRectangle;
    }
    Answer::PixelShown(mem::replace(plane.visible_pixel_mut(x, y), value))
}

/// Replaces the pixels that `draws` take, and returns the pixels before the writes. The memory for the result is allocated
/// first.
pub(crate) fn replay_pixels_mut<T: Pixel>(
    alloc: Global,
    plane: &mut Plane<T>,
    draws: &[PixelDraw<T>],
) -> Result<Answer<T>, AllocError>
    ensures answer { let pixels = row_major (table_of plane.old) in IfOk result (λ answer.
        answer ≡ PixelsWalked (length pixels) (draws_answer pixels (map side_of_pixel draws.now))) }
    ensures table { OnOk result (table_of plane.new ≡ pixels_written (table_of plane.old) draws.now) }
    ensures err { OnErr result (plane.new ≡ plane.old) }
    ensures border { KeepsBorder plane.old plane.new }
{
    let (total, drawn) = walked(alloc, &mut plane.pixels(), draws)?;
    write_pixels(plane, draws);
    Ok(Answer::PixelsWalked { total, drawn })
}

/// Replaces the pixels that `draws` take. Draws past the last pixel write nothing.
pub(crate) fn write_pixels<T: Copy>(plane: &mut Plane<T>, draws: &[PixelDraw<T>])
    ensures table { table_of plane.new ≡ pixels_written (table_of plane.old) draws.now }
    ensures border { KeepsBorder plane.old plane.new }
{
    let mut walk = plane.pixels_mut();
    for draw in draws {
        let pixel = match draw.side() {
            Side::Front => walk.next(),
            Side::Back => walk.next_back(),
        };
        if let Some(pixel) = pixel {
            replace_by(pixel, draw);
        }
    }
    dropped_pixels_keep_their_values::<T>();
}

/// Replaces a pixel with the value of `draw`, if `draw` has one.
pub(crate) fn replace_by<T: Copy>(pixel: &mut T, draw: &PixelDraw<T>)
    ensures { pixel.new ≡ pixel_written draw.now pixel.old }
{
    if let Some(value) = draw.value {
        *pixel = value;
    }
}

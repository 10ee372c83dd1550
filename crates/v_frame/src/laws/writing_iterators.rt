//! Laws of the iterators that lend rows and pixels for writing: the items that `next` and `next_back` yield, and the effect of
//! writes.
ghost use Rattle.std.specs.Prelude.{◌≡◌, All, None, IfOk};
ghost use Rattle.v_frame_raster.specs.Table.{row_major};
ghost use Rattle.v_frame_raster.specs.Raster.{KeepsBorder, table_of};
ghost use Rattle.v_frame.specs.Walk.{draws_answer, pixels_written, rows_written, AreDrawnOnce};

use crate::pixel::Pixel;
use crate::plane::{PixelsMut, Plane, RowsMut};
use crate::replay::pixel_writes::write_pixels;
use crate::replay::row_writes::write_rows;
use crate::replay::walk::{Walk, draw_items};
use crate::replay::{Drawn, PixelDraw, RowDraw, Side};
use crate::sequence::Sequence;
use std::alloc::{AllocError, Global};

/// Any series of `next` and `next_back` calls on `Plane::rows_mut` lends each row of the plane once. The rows are copied, and
/// the error means that memory could not be allocated.
pub fn lent_rows_are_drawn_once<T: Pixel>(
    alloc: Global,
    plane: &mut Plane<T>,
    sides: &[Side],
) -> Result<Vec<Drawn<Sequence<T>>>, AllocError>
    ensures counted { IfOk result (λ drawn.
        drawn.items ≡ draws_answer (table_of plane.old) sides.now) }
    ensures once { IfOk result (λ drawn. AreDrawnOnce (table_of plane.old) sides.now drawn.items) }
{
    draw_items(alloc, &mut plane.rows_mut(), sides)
}

/// Any series of `next` and `next_back` calls on `Plane::pixels_mut` lends each pixel of the plane once. The error means that
/// memory could not be allocated.
pub fn lent_pixels_are_drawn_once<T: Pixel>(
    alloc: Global,
    plane: &mut Plane<T>,
    sides: &[Side],
) -> Result<Vec<Drawn<T>>, AllocError>
    ensures counted { let pixels = row_major (table_of plane.old) in IfOk result (λ drawn.
        drawn.items ≡ draws_answer pixels sides.now) }
    ensures once { IfOk result (λ drawn.
        AreDrawnOnce (row_major (table_of plane.old)) sides.now drawn.items) }
{
    draw_items(alloc, &mut plane.pixels_mut(), sides)
}

/// Rows that any series of `next` and `next_back` calls lends hold the pixels that are written into them. All other entries of
/// the plane are unchanged. If no call writes a pixel, the whole plane is unchanged.
pub fn lent_rows_hold_what_is_written<T: Copy>(plane: &mut Plane<T>, draws: &[RowDraw<T>])
    ensures written { table_of plane.new ≡ rows_written (table_of plane.old) draws.now }
    ensures border { KeepsBorder plane.old plane.new }
    ensures kept { All (λ draw. All (λ write. write ≡ None) draw.writes) draws.now
        → plane.new ≡ plane.old }
{
    // The buffer is whole before and after, so the geometry, the table and the border determine it.
    let _before = plane.data();
    write_rows(plane, draws);
    let _after = plane.data();
}

/// Pixels that any series of `next` and `next_back` calls lends hold the values that are written into them. All other entries
/// of the plane are unchanged. If no call writes its pixel, the whole plane is unchanged.
pub fn lent_pixels_hold_what_is_written<T: Copy>(plane: &mut Plane<T>, draws: &[PixelDraw<T>])
    ensures written { table_of plane.new ≡ pixels_written (table_of plane.old) draws.now }
    ensures border { KeepsBorder plane.old plane.new }
    ensures kept { All (λ draw. draw.value ≡ None) draws.now → plane.new ≡ plane.old }
{
    // The buffer is whole before and after, so the geometry, the table and the border determine it.
    let _before = plane.data();
    write_pixels(plane, draws);
    let _after = plane.data();
}

impl<'a, T: Copy> Walk for RowsMut<'a, T> {
    ghost use Rattle.v_frame_plane.specs.RowsLeft.{rows_left};

    type Item = Sequence<T>;

    ghost items = { rows_left };

    #[tactic(auto, using(crate::proofs::DrawnItems::first_drawn, crate::proofs::DrawnItems::last_drawn))]
    fn draw(&mut self, alloc: Global, side: Side) -> Result<Option<Sequence<T>>, AllocError> {
        let row = match side {
            Side::Front => self.next(),
            Side::Back => self.next_back(),
        };
        Sequence::from_option(alloc, row.as_deref())
    }

    fn remaining(&self) -> usize {
        self.len()
    }
}

impl<'a, T: Copy> Walk for PixelsMut<'a, T> {
    ghost use Rattle.v_frame_plane.specs.PixelsLeft.{pixels_left};

    type Item = T;

    ghost items = { pixels_left };

    #[tactic(auto, using(crate::proofs::DrawnItems::first_drawn, crate::proofs::DrawnItems::last_drawn))]
    fn draw(&mut self, _alloc: Global, side: Side) -> Result<Option<T>, AllocError> {
        let pixel = match side {
            Side::Front => self.next(),
            Side::Back => self.next_back(),
        };
        Ok(pixel.copied())
    }

    fn remaining(&self) -> usize {
        self.len()
    }
}

//! A first frame: built, filled, written and read. README shows how to fill a row.
ghost use Rattle.std.specs.Prelude.{◌≡◌, ◌<◌, [], ◌∷◌, Contains, IfErr, IfOk, IfSome, replicate, slice_set};
ghost use Rattle.v_frame.specs.Prelude.{KeepsBorder, table_of};

use std::alloc::Global;
use v_frame::chroma::ChromaSubsampling;
use v_frame::frame::{Frame, FrameBuilder, FrameError};
use v_frame::plane::Plane;

/// Returns a frame with a luma plane of 3 by 2 pixels next to 16 columns of border. The plane is filled from rows of four
/// bytes, each with three pixels and one more byte. Then its first row is overwritten.
pub fn first_frame(alloc: Global) -> Result<Frame<u8>, FrameError>
    ensures shown { IfOk result (λ frame. table_of frame.y_plane
        ≡ (9 ∷ 9 ∷ 9 ∷ []) ∷ (40 ∷ 50 ∷ 60 ∷ []) ∷ []) }
    ensures fault { IfErr result (λ fault. fault ≡ FrameError.OutOfMemory) }
{
    let mut frame = FrameBuilder::new(3, 2, ChromaSubsampling::Monochrome, 8)
        .luma_padding_left(16)
        .build::<u8>(alloc)?;
    let source = [10, 20, 30, 0, 40, 50, 60, 0];
    let copied = frame.y_plane.copy_from_u8_slice_with_stride(&source, 4);
    prove!(copied.is_ok());
    fill_row(&mut frame.y_plane, 0, 9);
    Ok(frame)
}

/// Sets all pixels of visible row `y` to `pixel`. Everything else in the plane is unchanged, including the border.
pub fn fill_row(plane: &mut Plane<u8>, y: usize, pixel: u8)
    requires { y < plane.old.geometry.height }
    ensures table { table_of plane.new
        ≡ slice_set (table_of plane.old) y (replicate plane.old.geometry.width pixel) }
    ensures border { KeepsBorder plane.old plane.new }
{
    plane.visible_row_mut(y).fill(pixel);
}

/// Returns a visible row that holds `pixel`, or `None` if the loop finds no such row.
pub fn row_with(plane: &Plane<u8>, pixel: u8) -> Option<&[u8]>
    ensures shown { IfSome result (λ row. Contains (table_of plane.now) row.now) }
    ensures holds { IfSome result (λ row. Contains row.now pixel) }
{
    for row in plane.rows() {
        if row.contains(&pixel) {
            return Some(row);
        }
    }
    None
}

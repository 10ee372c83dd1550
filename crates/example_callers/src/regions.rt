//! Blocks of a plane that are read without a copy.
ghost use Rattle.std.specs.Prelude.{◌≡◌, ◌*◌, ◌==◌, ◌↔◌, IfSome, IsSome};
ghost use Rattle.std.specs.List.{list_any};
ghost use Rattle.v_frame.specs.Prelude.{IsInside, byte_list, rectangle, table_of};

use v_frame::pixel::Pixel;
use v_frame::plane::{ByteData, Plane, PlaneRef};

/// Returns whether a block of a plane holds `pixel`, or `None` if the plane has no such block.
pub fn block_has_pixel(
    plane: &Plane<u8>,
    x: usize,
    y: usize,
    width: usize,
    height: usize,
    pixel: u8,
) -> Option<bool>
    ensures there { IsSome result ↔ IsInside plane.now.geometry x y width height }
    ensures found { IfSome result (λ found. found ≡ list_any (λ row. list_any (λ p. p == pixel) row)
        (rectangle x y width height (table_of plane.now))) }
{
    let block = plane.as_plane_ref().region(x, y, width, height)?;
    Some(block.rows().any(|row| row.contains(&pixel)))
}

/// Returns the bytes of a block, row by row, for a hash or a file. The block must lie inside the plane.
pub fn bytes_of_block<'a, T: Pixel>(
    plane: &PlaneRef<'a, T>,
    x: usize,
    y: usize,
    width: usize,
    height: usize,
) -> ByteData<'a, T>
    requires { IsInside plane.now.geometry x y width height }
    ensures { result ≡ byte_list T.form (rectangle x y width height (table_of plane.now)) }
{
    plane.visible_region(x, y, width, height).byte_data()
}

//! A filter in two versions: each pixel `p` of a plane becomes `255 - p`.
ghost use Rattle.std.specs.Prelude.{◌≡◌, ◌-◌};
ghost use Rattle.v_frame.specs.Prelude.{KeepsBorder, table_of};
ghost use Rattle.v_frame_ops.specs.Prelude.{mapped};

use v_frame::laws::tables_agree_by_rows;
use v_frame::plane::Plane;
use v_frame_ops::map_pixels;

/// Inverts each pixel with the call that changes a plane pixel by pixel.
pub fn invert(plane: &mut Plane<u8>)
    ensures table { table_of plane.new ≡ mapped (mapped (λ pixel. 255 - pixel)) (table_of plane.old) }
    ensures border { KeepsBorder plane.old plane.new }
{
    map_pixels(plane, |pixel| 255 - pixel);
}

/// Inverts each pixel with a loop over the rows.
pub fn invert_by_rows(plane: &mut Plane<u8>)
    ensures table { table_of plane.new ≡ mapped (mapped (λ pixel. 255 - pixel)) (table_of plane.old) }
    ensures border { KeepsBorder plane.old plane.new }
{
    tables_agree_by_rows::<u8>();
    for y in 0..plane.height() {
        invert_row(plane.visible_row_mut(y));
    }
}

/// Inverts each pixel of a row.
fn invert_row(row: &mut [u8])
    ensures { row.new ≡ mapped (λ pixel. 255 - pixel) row.old }
{
    for pixel in row.iter_mut() {
        *pixel = 255 - *pixel;
    }
}

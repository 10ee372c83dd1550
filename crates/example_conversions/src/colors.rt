//! Pictures converted to RGB and from RGB, and the accuracy of a conversion in both directions.
ghost use Rattle.std.specs.Prelude.{◌≡◌, ◌*◌, [], ◌∷◌, length, slice_index};
ghost use Rattle.v_frame.specs.Prelude.{height_of, strided_rows, table_of, width_of, KeepsBorder, KeepsRest, RowsFit};
ghost use Rattle.v_frame_rgb.specs.Prelude.{color_rows, rgb_matrix_of, sample_rows, y_of, yuv_matrix_of};
ghost use Rattle.v_frame_rgb.specs.Prelude.{ComesBack};

use v_frame::plane::{Plane, RowsRef};
use v_frame_rgb::laws::colors_come_back;
use v_frame_rgb::{
    Bgra, Channel, ChromaU, ChromaV, Color, ColorRange, Luma, Rgb, RgbMatrix, Standard, YuvMatrix,
    rows,
};

/// Converts luma and chroma of the same size to the memory of a screen, which stores blue, green, red and alpha bytes and has
/// this `stride`. The other bytes of the memory stay unchanged.
pub fn show_on_screen(
    y: &RowsRef<'_, u8>,
    u: &RowsRef<'_, u8>,
    v: &RowsRef<'_, u8>,
    screen: &mut [u8],
    stride: usize,
)
    requires u_wide { width_of u.now ≡ width_of y.now }
    requires u_high { height_of u.now ≡ height_of y.now }
    requires v_wide { width_of v.now ≡ width_of y.now }
    requires v_high { height_of v.now ≡ height_of y.now }
    requires fit { RowsFit (4 * width_of y.now) (height_of y.now) stride (length screen.old) }
    ensures table { strided_rows (4 * width_of y.now) (height_of y.now) stride screen.new
        ≡ color_rows (rgb_matrix_of Standard.Bt709 ColorRange.Limited)
        (λ color. color.blue ∷ color.green ∷ color.red ∷ 255 ∷ []) y.now u.now v.now }
    ensures rest { KeepsRest (4 * width_of y.now) (height_of y.now) stride screen.old screen.new }
{
    let matrix = RgbMatrix::new(Standard::Bt709, ColorRange::Limited);
    let (width, height) = (y.width(), y.height());
    prove!(stride >= width);
    rows::yuv444_to_rgb::<Bgra>(y, u, v, screen, 4 * width, height, stride, matrix);
}

/// Converts an RGB picture to luma as in a JPEG file and writes it to `plane`. The padding of the plane stays unchanged.
pub fn luma_of_photo(photo: &RowsRef<'_, u8>, plane: &mut Plane<u8>)
    requires wide { width_of photo.now ≡ 3 * plane.old.geometry.width }
    requires high { height_of photo.now ≡ plane.old.geometry.height }
    ensures table { table_of plane.new ≡ sample_rows (y_of (yuv_matrix_of Standard.Bt601 ColorRange.Full))
        (λ pixel. record { red = slice_index pixel 0; green = slice_index pixel 1; blue = slice_index pixel 2 })
        3 plane.old.geometry.width photo.now }
    ensures border { KeepsBorder plane.old plane.new }
{
    let matrix = YuvMatrix::new(Standard::Bt601, ColorRange::Full);
    v_frame_rgb::rgb_to_channel::<Rgb, Luma>(photo, plane, matrix);
}

/// Returns a color after it was stored as luma and chroma. Red and green differ from `color` by at most 1. Blue differs by at
/// most 1 in full range and by at most 2 in limited range.
pub fn stored(color: Color, standard: Standard, range: ColorRange) -> Color
    ensures { ComesBack range color result }
{
    colors_come_back();
    let matrix = YuvMatrix::new(standard, range);
    let y = Luma::sample(matrix, color);
    let (u, v) = (
        ChromaU::sample(matrix, color),
        ChromaV::sample(matrix, color),
    );
    RgbMatrix::new(standard, range).color(y, u, v)
}

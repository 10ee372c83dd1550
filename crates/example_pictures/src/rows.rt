//! The colors of a frame as a PNG picture.
ghost use Rattle.std.specs.Prelude.{◌≡◌, [], ◌∷◌, IfOk};
ghost use Rattle.v_frame.specs.Prelude.{height_of, width_of};
ghost use Rattle.v_frame_png.specs.Prelude.{HasFile};
ghost use Rattle.v_frame_rgb.specs.Prelude.{color_rows};

use std::alloc::Global;
use std::io;
use v_frame::plane::{RowsRef, rows_fit};
use v_frame_png::{Header, PngError, write_png};
use v_frame_rgb::{Rgb, RgbMatrix, rows};

/// Writes the colors of luma and chroma of the same size as a PNG picture, and returns the writer. The header has the size of
/// the planes and [`Samples::Rgb8`](v_frame_png::Samples::Rgb8).
pub fn write_colors<W: io::Write + Drop>(
    alloc: Global,
    out: W,
    header: Header,
    y: &RowsRef<'_, u8>,
    u: &RowsRef<'_, u8>,
    v: &RowsRef<'_, u8>,
    matrix: RgbMatrix,
) -> Result<W, PngError>
    requires u_wide { width_of u.now ≡ width_of y.now }
    requires u_high { height_of u.now ≡ height_of y.now }
    requires v_wide { width_of v.now ≡ width_of y.now }
    requires v_high { height_of v.now ≡ height_of y.now }
    ensures file { IfOk result (λ new. HasFile W.contents (W.contents out) new header
        (color_rows matrix (λ color. color.red ∷ color.green ∷ color.blue ∷ [])
        y.now u.now v.now)) }
{
    let width = y.width().checked_mul(3).ok_or(PngError::OutOfMemory)?;
    let height = y.height();
    let size = width.checked_mul(height).ok_or(PngError::OutOfMemory)?;
    let mut bytes = vec![in alloc; 0; size]?;
    if !rows_fit(width, height, width, bytes.len()) {
        return Err(PngError::OutOfMemory);
    }
    rows::yuv444_to_rgb::<Rgb>(y, u, v, &mut bytes, width, height, width, matrix);
    let colors = RowsRef::new(&bytes, width, height, width).ok_or(PngError::OutOfMemory)?;
    write_png(alloc, out, header, &colors)
}

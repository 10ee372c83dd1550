//! Conversion of colors to three planes of the same size.
ghost use Rattle.std.specs.Prelude.{◌≡◌, ◌*◌, ◌<◌, IsTrue, SomeIff, length};
ghost use Rattle.v_frame.specs.Prelude.{height_of, strided_rows, width_of, KeepsRest, RowsFit};
ghost use Rattle.v_frame_slices.specs.ColorCalls.{AreSamples};
ghost use Rattle.v_frame_slices.specs.ColorChoice.{color_by, is_choice, size_by, yuv_matrix_by};
ghost use Rattle.v_frame_rgb.specs.Prelude.{sample_rows, u_of, v_of, y_of};

use crate::colors::ColorChoice;
use crate::layout::Rows;
use crate::status::{FIRST, FOURTH, NUMBER, OK, SECOND, SIZES, THIRD};
use v_frame::plane::RowsRef;
use v_frame_rgb::{Bgr, Bgra, Rgb, Rgba, YuvMatrix, rows as colors};

/// Converts the colors of the first rows to luma in the second rows, and to chroma in the third and fourth rows.
pub fn of_rgb(
    rows: &Rows,
    buffer: &[u8],
    y_rows: &Rows,
    y: &mut [u8],
    u_rows: &Rows,
    u: &mut [u8],
    v_rows: &Rows,
    v: &mut [u8],
    choice: &ColorChoice,
) -> u32
    ensures made { AreSamples choice.now rows.now y_rows.now u_rows.now v_rows.now buffer.now y.old y.new u.old
        u.new v.old v.new result }
{
    let Some(matrix) = choice.yuv_matrix() else {
        return NUMBER;
    };
    let Some(source) = rows.of(buffer) else {
        return FIRST;
    };
    if !y_rows.fit(y.len()) {
        return SECOND;
    }
    if !u_rows.fit(u.len()) {
        return THIRD;
    }
    if !v_rows.fit(v.len()) {
        return FOURTH;
    }
    if !rows.have_colors_of(y_rows, choice.order)
        || !y_rows.same_size(u_rows)
        || !y_rows.same_size(v_rows)
    {
        return SIZES;
    }
    let strides = (y_rows.stride, u_rows.stride, v_rows.stride);
    write_samples(
        &source,
        matrix,
        y,
        u,
        v,
        (y_rows.width, y_rows.height),
        strides,
        choice.order,
    );
    OK
}

/// Writes the samples of colors in the byte order with this number.
fn write_samples(
    source: &RowsRef<'_, u8>,
    matrix: YuvMatrix,
    y: &mut [u8],
    u: &mut [u8],
    v: &mut [u8],
    size: (usize, usize),
    strides: (usize, usize, usize),
    order: u32,
)
    requires known { order < 4 }
    requires y_fit { RowsFit size.0 size.1 strides.0 (length y.old) }
    requires u_fit { RowsFit size.0 size.1 strides.1 (length u.old) }
    requires v_fit { RowsFit size.0 size.1 strides.2 (length v.old) }
    requires wide { width_of source.now ≡ size_by order * size.0 }
    requires high { height_of source.now ≡ size.1 }
    ensures luma { strided_rows size.0 size.1 strides.0 y.new
        ≡ sample_rows (y_of matrix) (color_by order) (size_by order) size.0 source.now }
    ensures chroma_u { strided_rows size.0 size.1 strides.1 u.new
        ≡ sample_rows (u_of matrix) (color_by order) (size_by order) size.0 source.now }
    ensures chroma_v { strided_rows size.0 size.1 strides.2 v.new
        ≡ sample_rows (v_of matrix) (color_by order) (size_by order) size.0 source.now }
    ensures y_rest { KeepsRest size.0 size.1 strides.0 y.old y.new }
    ensures u_rest { KeepsRest size.0 size.1 strides.1 u.old u.new }
    ensures v_rest { KeepsRest size.0 size.1 strides.2 v.old v.new }
{
    let (width, height) = size;
    match order {
        0 => colors::rgb_to_yuv444::<Rgb>(source, y, u, v, width, height, strides, matrix),
        1 => colors::rgb_to_yuv444::<Bgr>(source, y, u, v, width, height, strides, matrix),
        2 => colors::rgb_to_yuv444::<Rgba>(source, y, u, v, width, height, strides, matrix),
        _ => colors::rgb_to_yuv444::<Bgra>(source, y, u, v, width, height, strides, matrix),
    }
}

impl ColorChoice {
    /// Returns the coefficients of the conversion to samples, or `None` if a number is not valid.
    pub fn yuv_matrix(&self) -> Option<YuvMatrix>
        ensures { SomeIff result (IsTrue (is_choice self.now)) (yuv_matrix_by self.now) }
    {
        if !self.is_known() {
            return None;
        }
        Some(YuvMatrix::new(self.standard(), self.range()))
    }
}

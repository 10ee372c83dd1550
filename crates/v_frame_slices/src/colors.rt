//! Conversion of three planes of the same size to colors.
ghost use Rattle.std.specs.Prelude.{◌≡◌, ◌*◌, ◌<◌, IsTrue, SomeIff, length, nat_eq};
ghost use Rattle.v_frame.specs.Prelude.{height_of, width_of, KeepsRest, RowsFit};
ghost use Rattle.v_frame_slices.specs.ColorCalls.{AreColors};
ghost use Rattle.v_frame_slices.specs.ColorChoice.{bytes_by, is_choice, matrix_by, range_by, size_by, standard_by};
ghost use Rattle.v_frame_slices.specs.Layout.{picture};
ghost use Rattle.v_frame_slices.specs.Status.{encoded_size};
ghost use Rattle.v_frame_rgb.specs.Prelude.{color_rows};

use crate::layout::Rows;
use crate::status::{FIRST, FOURTH, NUMBER, OK, SECOND, SIZES, THIRD};
use v_frame::plane::RowsRef;
use v_frame_rgb::{Bgr, Bgra, ColorRange, Rgb, RgbMatrix, Rgba, Standard, rows as colors};

/// A kind of colors: the numbers of a standard, of a range and of an order of bytes.
#[derive(Drop)]
#[repr(C)]
pub struct ColorChoice {
    pub standard: u32,
    pub range: u32,
    pub order: u32,
}

/// Converts three pictures of the same size, with luma and both chroma components, to colors in the rows of the buffer.
pub fn to_rgb(
    rows: &Rows,
    buffer: &mut [u8],
    y_rows: &Rows,
    y: &[u8],
    u_rows: &Rows,
    u: &[u8],
    v_rows: &Rows,
    v: &[u8],
    choice: &ColorChoice,
) -> u32
    ensures made { AreColors choice.now rows.now y_rows.now u_rows.now v_rows.now y.now u.now v.now buffer.old
        buffer.new result }
{
    let Some(matrix) = choice.matrix() else {
        return NUMBER;
    };
    if !rows.fit(buffer.len()) {
        return FIRST;
    }
    let Some(y) = y_rows.of(y) else {
        return SECOND;
    };
    let Some(u) = u_rows.of(u) else {
        return THIRD;
    };
    let Some(v) = v_rows.of(v) else {
        return FOURTH;
    };
    if !rows.have_colors_of(y_rows, choice.order)
        || !y_rows.same_size(u_rows)
        || !y_rows.same_size(v_rows)
    {
        return SIZES;
    }
    write_colors(&y, &u, &v, matrix, buffer, rows, choice.order);
    OK
}

/// Writes the colors in the byte order with this number.
fn write_colors(
    y: &RowsRef<'_, u8>,
    u: &RowsRef<'_, u8>,
    v: &RowsRef<'_, u8>,
    matrix: RgbMatrix,
    buffer: &mut [u8],
    rows: &Rows,
    order: u32,
)
    requires known { order < 4 }
    requires fit { RowsFit rows.now.width rows.now.height rows.now.stride (length buffer.old) }
    requires wide { rows.now.width ≡ size_by order * width_of y.now }
    requires high { height_of y.now ≡ rows.now.height }
    requires u_wide { width_of u.now ≡ width_of y.now }
    requires u_high { height_of u.now ≡ rows.now.height }
    requires v_wide { width_of v.now ≡ width_of y.now }
    requires v_high { height_of v.now ≡ rows.now.height }
    ensures table { picture rows.now buffer.new
        ≡ color_rows matrix (bytes_by order) y.now u.now v.now }
    ensures rest { KeepsRest rows.now.width rows.now.height rows.now.stride buffer.old buffer.new }
{
    let (width, height, stride) = (rows.width, rows.height, rows.stride);
    match order {
        0 => colors::yuv444_to_rgb::<Rgb>(y, u, v, buffer, width, height, stride, matrix),
        1 => colors::yuv444_to_rgb::<Bgr>(y, u, v, buffer, width, height, stride, matrix),
        2 => colors::yuv444_to_rgb::<Rgba>(y, u, v, buffer, width, height, stride, matrix),
        _ => colors::yuv444_to_rgb::<Bgra>(y, u, v, buffer, width, height, stride, matrix),
    }
}

impl ColorChoice {
    /// Returns whether all three numbers are valid.
    pub fn is_known(&self) -> bool
        ensures { result ≡ is_choice self.now }
    {
        self.standard < 3 && self.range < 2 && self.order < 4
    }

    /// Returns the coefficients of the conversion to colors, or `None` if a number is not valid.
    pub fn matrix(&self) -> Option<RgbMatrix>
        ensures { SomeIff result (IsTrue (is_choice self.now)) (matrix_by self.now) }
    {
        if !self.is_known() {
            return None;
        }
        Some(RgbMatrix::new(self.standard(), self.range()))
    }

    /// Returns the standard.
    pub fn standard(&self) -> Standard
        ensures { result ≡ standard_by self.now.standard }
    {
        match self.standard {
            0 => Standard::Bt601,
            1 => Standard::Bt709,
            _ => Standard::Bt2020,
        }
    }

    /// Returns the range.
    pub fn range(&self) -> ColorRange
        ensures { result ≡ range_by self.now.range }
    {
        match self.range {
            0 => ColorRange::Limited,
            _ => ColorRange::Full,
        }
    }
}

impl Rows {
    /// Returns whether these rows have the same height as `other`, and the bytes of one color for each of its pixels.
    pub fn have_colors_of(&self, other: &Rows, order: u32) -> bool
        ensures { result ≡ encoded_size (size_by order) other.now self.now }
    {
        let wide = if order < 2 {
            is_thrice(self.width, other.width)
        } else {
            is_four_times(self.width, other.width)
        };
        wide && self.height == other.height
    }
}

/// Returns whether `number` is three times `part`.
fn is_thrice(number: usize, part: usize) -> bool
    ensures { result ≡ nat_eq number (3 * part) }
{
    number % 3 == 0 && number / 3 == part
}

/// Returns whether `number` is four times `part`.
fn is_four_times(number: usize, part: usize) -> bool
    ensures { result ≡ nat_eq number (4 * part) }
{
    number % 4 == 0 && number / 4 == part
}

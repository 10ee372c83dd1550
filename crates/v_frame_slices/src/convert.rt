//! Conversions of pictures to another bit depth or size, for any type of pixel.
ghost use Rattle.std.specs.Prelude.{◌≡◌, ◌&&◌, IsTrue, SomeIff};
ghost use Rattle.v_frame_slices.specs.Made.{IsAtDepth, IsUpscaled};
ghost use Rattle.v_frame_slices.specs.Numbers.{is_depth};

use crate::layout::Rows;
use crate::status::{FIRST, NUMBER, OK, SECOND, SIZES};
use v_frame::pixel::Pixel;
use v_frame_convert::rows as conversions;

/// Converts the picture of the source rows from the bit depth `from` to the bit depth `to`.
pub fn convert_depth<S: Pixel, T: Pixel>(
    rows: &Rows,
    buffer: &mut [T],
    source_rows: &Rows,
    source: &[S],
    from: u32,
    to: u32,
) -> u32
    ensures made { IsAtDepth rows.now source_rows.now source.now buffer.old buffer.new result S.form T.form
        S.BYTES T.BYTES from to }
{
    let Some((from, to)) = depths::<S, T>(from, to) else {
        return NUMBER;
    };
    if !rows.fit(buffer.len()) {
        return FIRST;
    }
    let Some(source) = source_rows.of(source) else {
        return SECOND;
    };
    if !rows.same_size(source_rows) {
        return SIZES;
    }
    conversions::convert_depth(
        &source,
        buffer,
        rows.width,
        rows.height,
        rows.stride,
        from,
        to,
    );
    OK
}

/// Returns both bit depths, or `None` if one of them does not fit its type of pixel.
fn depths<S: Pixel, T: Pixel>(from: u32, to: u32) -> Option<(u8, u8)>
    ensures { SomeIff result (IsTrue (is_depth S.BYTES from && is_depth T.BYTES to)) (from, to) }
{
    if is_depth::<S>(from) && is_depth::<T>(to) {
        return Some((from as u8, to as u8));
    }
    None
}

/// Returns whether pixels of the type `T` can have values of this bit depth.
pub fn is_depth<T: Pixel>(depth: u32) -> bool
    ensures { result ≡ is_depth T.BYTES depth }
{
    8 <= depth && depth <= 8 * (T::BYTES as u32)
}

/// Writes the picture of the source rows with each pixel repeated `ratio_x` times across and `ratio_y` times down.
pub fn upscale<T: Pixel>(
    rows: &Rows,
    buffer: &mut [T],
    source_rows: &Rows,
    source: &[T],
    ratio_x: usize,
    ratio_y: usize,
) -> u32
    ensures made { IsUpscaled rows.now source_rows.now source.now buffer.old buffer.new result ratio_x ratio_y }
{
    if ratio_x == 0 || ratio_y == 0 {
        return NUMBER;
    }
    if !rows.fit(buffer.len()) {
        return FIRST;
    }
    let Some(source) = source_rows.of(source) else {
        return SECOND;
    };
    if !rows.is_subsampled_by(source_rows, ratio_x, ratio_y) {
        return SIZES;
    }
    conversions::upscale(
        &source,
        buffer,
        rows.width,
        rows.height,
        rows.stride,
        ratio_x,
        ratio_y,
    );
    OK
}

//! Pictures at half the size, rounded up, for any type of pixel.
ghost use Rattle.v_frame_slices.specs.Made.{IsScaled};
ghost use Rattle.v_frame_convert.specs.declared.scale.Scale.TheVariants.{Half, Same};

use crate::layout::Rows;
use crate::status::{FIRST, OK, SECOND, SIZES};
use v_frame::pixel::Pixel;
use v_frame_convert::rows as conversions;

/// Writes the picture of the source rows at half its size, rounded up. If the width or the height is odd, the last column or row
/// is repeated.
pub fn downscale_to_edge<T: Pixel>(
    rows: &Rows,
    buffer: &mut [T],
    source_rows: &Rows,
    source: &[T],
) -> u32
    ensures made { IsScaled rows.now source_rows.now source.now buffer.old buffer.new result T.form 2 2 Half Half }
{
    if !rows.fit(buffer.len()) {
        return FIRST;
    }
    let Some(source) = source_rows.of(source) else {
        return SECOND;
    };
    if !source_rows.is_subsampled_by(rows, 2, 2) {
        return SIZES;
    }
    conversions::downscale_to_edge(&source, buffer, rows.width, rows.height, rows.stride);
    OK
}

/// Writes the picture of the source rows with half as many columns, rounded up. If the width is odd, the last column is repeated.
pub fn halve_columns<T: Pixel>(
    rows: &Rows,
    buffer: &mut [T],
    source_rows: &Rows,
    source: &[T],
) -> u32
    ensures made { IsScaled rows.now source_rows.now source.now buffer.old buffer.new result T.form 2 1 Half Same }
{
    if !rows.fit(buffer.len()) {
        return FIRST;
    }
    let Some(source) = source_rows.of(source) else {
        return SECOND;
    };
    if !source_rows.is_subsampled_by(rows, 2, 1) {
        return SIZES;
    }
    conversions::halve_columns(&source, buffer, rows.width, rows.height, rows.stride);
    OK
}

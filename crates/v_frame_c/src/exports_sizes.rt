//! The exports that make pictures of other sizes.
ghost use Rattle.v_frame.specs.Prelude.{one_byte, two_bytes};
ghost use Rattle.v_frame_slices.specs.Made.{IsResizedByArea, IsResizedByNearest, IsScaled};
ghost use Rattle.v_frame_convert.specs.declared.scale.Scale.TheVariants.{Half, Same};

use v_frame_slices::layout::Rows;
use v_frame_slices::{halves, resize};

/// Resizes the picture of the source rows by a box filter: each pixel is the mean of the area that it covers, rounded to the
/// nearest value, and upwards at a half.
#[unsafe(no_mangle)]
pub extern "C" fn v_frame_resize_area_u8(
    rows: &Rows,
    buffer: &mut [u8],
    source_rows: &Rows,
    source: &[u8],
) -> u32
    ensures made { IsResizedByArea rows.now source_rows.now source.now buffer.old buffer.new result one_byte }
{
    resize::by_area(rows, buffer, source_rows, source)
}

/// Resizes the picture of the source rows by a box filter: each pixel is the mean of the area that it covers, rounded to the
/// nearest value, and upwards at a half.
#[unsafe(no_mangle)]
pub extern "C" fn v_frame_resize_area_u16(
    rows: &Rows,
    buffer: &mut [u16],
    source_rows: &Rows,
    source: &[u16],
) -> u32
    ensures made { IsResizedByArea rows.now source_rows.now source.now buffer.old buffer.new result two_bytes }
{
    resize::by_area(rows, buffer, source_rows, source)
}

/// Resizes the picture of the source rows by the nearest neighbor: each pixel is the pixel of the source that contains its
/// center.
#[unsafe(no_mangle)]
pub extern "C" fn v_frame_resize_nearest_u8(
    rows: &Rows,
    buffer: &mut [u8],
    source_rows: &Rows,
    source: &[u8],
) -> u32
    ensures made { IsResizedByNearest rows.now source_rows.now source.now buffer.old buffer.new result }
{
    resize::by_nearest(rows, buffer, source_rows, source)
}

/// Resizes the picture of the source rows by the nearest neighbor: each pixel is the pixel of the source that contains its
/// center.
#[unsafe(no_mangle)]
pub extern "C" fn v_frame_resize_nearest_u16(
    rows: &Rows,
    buffer: &mut [u16],
    source_rows: &Rows,
    source: &[u16],
) -> u32
    ensures made { IsResizedByNearest rows.now source_rows.now source.now buffer.old buffer.new result }
{
    resize::by_nearest(rows, buffer, source_rows, source)
}

/// Writes the picture of the source rows in half its size, rounded up. Past an edge the last column and the last row are
/// repeated.
#[unsafe(no_mangle)]
pub extern "C" fn v_frame_downscale_to_edge_u8(
    rows: &Rows,
    buffer: &mut [u8],
    source_rows: &Rows,
    source: &[u8],
) -> u32
    ensures made { IsScaled rows.now source_rows.now source.now buffer.old buffer.new result one_byte 2 2 Half Half }
{
    halves::downscale_to_edge(rows, buffer, source_rows, source)
}

/// Writes the picture of the source rows in half its size, rounded up. Past an edge the last column and the last row are
/// repeated.
#[unsafe(no_mangle)]
pub extern "C" fn v_frame_downscale_to_edge_u16(
    rows: &Rows,
    buffer: &mut [u16],
    source_rows: &Rows,
    source: &[u16],
) -> u32
    ensures made { IsScaled rows.now source_rows.now source.now buffer.old buffer.new result two_bytes 2 2 Half Half }
{
    halves::downscale_to_edge(rows, buffer, source_rows, source)
}

/// Writes the picture of the source rows with half as many columns, rounded up. Past an edge the last column is repeated.
#[unsafe(no_mangle)]
pub extern "C" fn v_frame_halve_columns_u8(
    rows: &Rows,
    buffer: &mut [u8],
    source_rows: &Rows,
    source: &[u8],
) -> u32
    ensures made { IsScaled rows.now source_rows.now source.now buffer.old buffer.new result one_byte 2 1 Half Same }
{
    halves::halve_columns(rows, buffer, source_rows, source)
}

/// Writes the picture of the source rows with half as many columns, rounded up. Past an edge the last column is repeated.
#[unsafe(no_mangle)]
pub extern "C" fn v_frame_halve_columns_u16(
    rows: &Rows,
    buffer: &mut [u16],
    source_rows: &Rows,
    source: &[u16],
) -> u32
    ensures made { IsScaled rows.now source_rows.now source.now buffer.old buffer.new result two_bytes 2 1 Half Same }
{
    halves::halve_columns(rows, buffer, source_rows, source)
}

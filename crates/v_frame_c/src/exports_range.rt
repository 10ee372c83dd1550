//! The exports that change the range of values.
ghost use Rattle.std.specs.Prelude.{false};
ghost use Rattle.std.specs.Prelude.{true};
ghost use Rattle.v_frame.specs.Prelude.{one_byte, two_bytes};
ghost use Rattle.v_frame_slices.specs.Made.{IsInRange};

use v_frame_slices::layout::Rows;
use v_frame_slices::range;

/// Converts the picture of the source rows from the limited range to the full range.
#[unsafe(no_mangle)]
pub extern "C" fn v_frame_to_full_range_u8(
    rows: &Rows,
    buffer: &mut [u8],
    source_rows: &Rows,
    source: &[u8],
    component: u32,
    depth: u32,
) -> u32
    ensures made { IsInRange rows.now source_rows.now source.now buffer.old buffer.new result one_byte 1 true
        component depth }
{
    range::to_range(rows, buffer, source_rows, source, true, component, depth)
}

/// Converts the picture of the source rows from the limited range to the full range.
#[unsafe(no_mangle)]
pub extern "C" fn v_frame_to_full_range_u16(
    rows: &Rows,
    buffer: &mut [u16],
    source_rows: &Rows,
    source: &[u16],
    component: u32,
    depth: u32,
) -> u32
    ensures made { IsInRange rows.now source_rows.now source.now buffer.old buffer.new result two_bytes 2 true
        component depth }
{
    range::to_range(rows, buffer, source_rows, source, true, component, depth)
}

/// Converts the picture of the source rows from the full range to the limited range.
#[unsafe(no_mangle)]
pub extern "C" fn v_frame_to_limited_range_u8(
    rows: &Rows,
    buffer: &mut [u8],
    source_rows: &Rows,
    source: &[u8],
    component: u32,
    depth: u32,
) -> u32
    ensures made { IsInRange rows.now source_rows.now source.now buffer.old buffer.new result one_byte 1 false
        component depth }
{
    range::to_range(rows, buffer, source_rows, source, false, component, depth)
}

/// Converts the picture of the source rows from the full range to the limited range.
#[unsafe(no_mangle)]
pub extern "C" fn v_frame_to_limited_range_u16(
    rows: &Rows,
    buffer: &mut [u16],
    source_rows: &Rows,
    source: &[u16],
    component: u32,
    depth: u32,
) -> u32
    ensures made { IsInRange rows.now source_rows.now source.now buffer.old buffer.new result two_bytes 2 false
        component depth }
{
    range::to_range(rows, buffer, source_rows, source, false, component, depth)
}

//! Conversions between limited and full range, for any type of pixel.
ghost use Rattle.std.specs.Prelude.{IsTrue, SomeIff};
ghost use Rattle.v_frame_slices.specs.Made.{IsInRange};
ghost use Rattle.v_frame_slices.specs.Numbers.{component_by, is_component};

use crate::convert::is_depth;
use crate::layout::Rows;
use crate::status::{FIRST, NUMBER, OK, SECOND, SIZES};
use v_frame::pixel::Pixel;
use v_frame_convert::{Component, rows as conversions};

/// Converts the picture of the source rows from limited to full range if `full` is true, and from full to limited range
/// otherwise.
pub fn to_range<T: Pixel>(
    rows: &Rows,
    buffer: &mut [T],
    source_rows: &Rows,
    source: &[T],
    full: bool,
    component: u32,
    depth: u32,
) -> u32
    ensures made { IsInRange rows.now source_rows.now source.now buffer.old buffer.new result T.form T.BYTES full
        component depth }
{
    let Some(component) = component_of(component) else {
        return NUMBER;
    };
    if !is_depth::<T>(depth) {
        return NUMBER;
    }
    if !rows.fit(buffer.len()) {
        return FIRST;
    }
    let Some(source) = source_rows.of(source) else {
        return SECOND;
    };
    if !rows.same_size(source_rows) {
        return SIZES;
    }
    let (width, height, stride) = (rows.width, rows.height, rows.stride);
    let depth = depth as u8;
    if full {
        conversions::to_full_range(&source, buffer, width, height, stride, component, depth);
        return OK;
    }
    conversions::to_limited_range(&source, buffer, width, height, stride, component, depth);
    OK
}

/// Returns the component with a number, or `None` if there is none.
fn component_of(number: u32) -> Option<Component>
    ensures { SomeIff result (IsTrue (is_component number)) (component_by number) }
{
    match number {
        0 => Some(Component::Luma),
        1 => Some(Component::Chroma),
        _ => None,
    }
}

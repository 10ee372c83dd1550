//! The operations on planes, for pixels that are kept outside a [`Plane`](v_frame::plane::Plane), for example in the buffer of a
//! decoder.
//!
//! An input is a [`RowsRef`](v_frame::plane::RowsRef). An output is a `buffer` with its `width`, `height` and `stride`, all
//! counted in pixels: row `y` begins at entry `stride * y`. [`rows_fit`](v_frame::plane::rows_fit) must hold for an output. All
//! entries of the buffer outside these rows stay unchanged. The operations on planes call these functions.
//! [`v_frame::plane::copy_rows`] copies one picture into another.

mod change;
mod clipped;
mod compare;
mod compose;
mod sums;

pub use change::{combine_pixels, downscale, fill, map_pixels};
pub use clipped::copy_region_clipped;
pub use compare::{first_difference, sum_of_absolute_differences, sum_of_squared_errors};
pub use compose::{blend, blend_with_mask, difference};
pub(crate) use compose::{largest_value, pixel_difference};

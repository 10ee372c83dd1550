//! Operations on planes for codecs and for programs that compare video: map, combine, fill, copy, blend, pad, halve and
//! compare.
#![tactic(auto)]

mod border;
mod change;
mod compare;
mod compose;
pub mod laws;
pub mod rows;
mod scale;

pub use border::{pad, pad_buffer};
pub use change::{combine_pixels, copy_region, fill, map_pixels};
pub use compare::{first_difference, sum_of_absolute_differences, sum_of_squared_errors};
pub use compose::{blend_region, blend_region_with_mask, copy_region_clipped, difference};
pub use scale::downscale;

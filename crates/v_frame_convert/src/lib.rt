//! Conversions of pictures: bit depth, range (limited or full), chroma format, and type of pixels.
#![tactic(auto)]

mod byte_pairs;
mod chroma;
mod depth;
mod depth_change;
mod frame;
mod map;
mod pixel;
mod range;
mod range_values;
pub mod rows;
mod scale;

pub use chroma::{downscale_to_edge, halve_columns, upscale};
pub use depth::convert_depth;
pub use frame::{convert_frame, frames_fit};
pub use map::map_into;
pub use pixel::{depth_fits, subsampled_size};
pub use range::{Component, to_full_range, to_limited_range};
pub use scale::{Scale, resample, sizes_fit};

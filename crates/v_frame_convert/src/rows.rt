//! The conversions for pixels that are kept outside a [`Plane`](v_frame::plane::Plane), for example in the buffer of a decoder.
//!
//! An input is a [`RowsRef`](v_frame::plane::RowsRef). An output is a `buffer` with its `width`, `height` and `stride`, all
//! counted in pixels: row `y` begins at entry `stride * y`. [`rows_fit`](v_frame::plane::rows_fit) must hold for an output. All
//! entries of the buffer outside these rows stay unchanged. The conversions of planes call these functions.

mod chroma;
mod depth;
mod halve;
mod map;
mod range;
mod scale;
mod scale_row;

pub use chroma::upscale;
pub use depth::convert_depth;
pub use halve::{downscale_to_edge, halve_columns};
pub use map::map_into;
pub use range::{to_full_range, to_limited_range};
pub use scale::resample;

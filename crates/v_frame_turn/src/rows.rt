//! The rotations, flips and transpositions for pixels that are kept outside a [`Plane`](v_frame::plane::Plane), for example in
//! the buffer of a decoder.
//!
//! An input is a [`RowsRef`](v_frame::plane::RowsRef). An output is a `buffer` with its `width`, `height` and `stride`, all
//! counted in pixels: row `y` begins at entry `stride * y`. [`rows_fit`](v_frame::plane::rows_fit) must hold for an output. All
//! entries of the buffer outside these rows stay unchanged. The operations on planes call these functions.

mod flip;
mod flip_in_place;
mod quarter;
mod row;
mod ways;

pub use flip::{flip_horizontal, flip_vertical, rotate_180};
pub use flip_in_place::{flip_horizontal_in_place, flip_vertical_in_place, rotate_180_in_place};
pub use quarter::{rotate_90, rotate_270, transpose};
pub use ways::turn;

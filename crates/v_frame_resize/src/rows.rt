//! The resize functions for pixels that are kept outside a [`Plane`](v_frame::plane::Plane), for example in the buffer of a
//! decoder.
//!
//! An input is a [`RowsRef`](v_frame::plane::RowsRef). An output is a `buffer` with its `width`, `height` and `stride`, all
//! counted in pixels: row `y` begins at entry `stride * y`. [`rows_fit`](v_frame::plane::rows_fit) must hold for an output. All
//! entries of the buffer outside these rows stay unchanged.

mod area;
mod nearest;

pub use area::{can_resize, resize_area};
pub use nearest::resize_nearest;

//! The conversions for samples that are kept outside a [`Plane`](v_frame::plane::Plane), for example in the buffer of a
//! decoder.
//!
//! An input is a [`RowsRef`](v_frame::plane::RowsRef). An output is a `buffer` with its `width`, `height` and `stride`: row `y`
//! begins at entry `stride * y`. [`rows_fit`](v_frame::plane::rows_fit) must hold for an output. All entries of the buffer
//! outside these rows stay unchanged.

mod decode;
mod encode;
mod exact;

pub use decode::yuv444_to_rgb;
pub use encode::{rgb_to_channel, rgb_to_yuv444};
pub use exact::yuv444_to_rgb_exactly;

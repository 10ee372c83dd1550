//! The operations for rows in plain buffers, in which each row begins one stride after the previous one, as decoders lay out
//! pictures.
//!
//! The source is a [`RowsRef`](v_frame::plane::RowsRef). The target is a slice `buffer` with its width, height and stride in
//! pixels, for which [`rows_fit`](v_frame::plane::rows_fit) must hold. Everything in the buffer outside these rows is
//! unchanged. The functions for planes call these functions.

mod chroma;
mod top_bits;

pub use chroma::{deinterleave, deinterleave_row, interleave, interleave_row};
pub use top_bits::{from_top_bits, to_top_bits};

//! Semi-planar video: luma in one plane, and both chroma components interleaved in another. Hardware decoders and encoders use
//! these layouts.
//!
//! [`interleave`] combines two chroma planes and [`deinterleave`] splits them. [`to_top_bits`] and [`from_top_bits`] move
//! samples within their 16-bit words. The module [`rows`] has the same operations for rows in plain buffers.
//!
//! [`write_frame`] writes a frame in one of the layouts of [`SemiPlanarFormat`], and [`read_frame`] reads it back. Their
//! guarantees are those of the functions of `v_frame_planar` for planar frames.
//!
//! `Rattle.v_frame_semi_planar.specs.Prelude` re-exports the definitions that contracts cite.
#![tactic(auto)]

mod byte_pairs;
mod chroma;
mod error;
mod format;
pub mod laws;
mod length;
mod pending;
mod reading;
pub mod rows;
mod samples;
mod storing;
mod top_bits;
mod writing;

pub use chroma::{deinterleave, interleave};
pub use error::SemiPlanarError;
pub use format::{SemiPlanarFormat, check_layout};
pub use length::semi_planar_len;
pub use reading::{read_frame, show_semi_planar_bytes};
pub use top_bits::{from_top_bits, to_top_bits};
pub use writing::write_frame;

//! Formats of raw video, with the names that ffmpeg, YUV4MPEG2 and people use: a chroma subsampling, a bit depth and the order of the
//! samples. Also the names of planes, numbers for the planes of a frame, pixels that differ, and rectangles.
//!
//! This crate has no counterpart in `v_frame` 0.7.0. `Rattle.v_frame_formats.specs.Prelude` exports the definitions for contracts.
#![tactic(auto)]

mod component;
mod difference;
mod format;
mod rectangle;
mod sums;

pub use component::Component;
pub use difference::PixelDifference;
pub use format::VideoFormat;
pub use rectangle::Rectangle;
pub use sums::PlaneSums;

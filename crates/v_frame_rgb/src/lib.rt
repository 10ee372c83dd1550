//! Conversions between Y'CbCr samples and R'G'B' colors by ITU-R BT.601, BT.709 and BT.2020.
#![tactic(auto)]

mod color;
mod convert;
mod exact;
pub mod laws;
mod matrix;
pub mod rows;
mod sample;
mod standard;
mod whole_steps;

pub use color::{Bgr, Bgra, Color, ColorOrder, Rgb, Rgba};
pub use convert::{rgb_to_channel, rgb_to_yuv444, yuv444_to_rgb};
pub use exact::ExactMatrix;
pub use matrix::{RgbMatrix, YuvMatrix};
pub use sample::{Channel, ChromaU, ChromaV, Luma};
pub use standard::{ColorRange, Standard};

//! Quality measures for two pictures of the same size: the structural similarity (SSIM), the mean squared error (MSE), the peak
//! signal-to-noise ratio (PSNR), the largest absolute difference, and the number of pixels that differ by more than a
//! threshold.
//!
//! All measures read the visible pixels of planes or frames and ignore the padding. [`ssim`] and [`frame_ssim`] return exactly
//! the numbers that FFmpeg's filter `ssim` computes with its C code in one thread. [`psnr`] returns the numbers of FFmpeg's
//! filter `psnr`. The order of the roundings of SSIM is defined in `Rattle.v_frame_measures.specs.Ssim`.
//!
//! MS-SSIM, PSNR-HVS and CIEDE2000 are not included, because no reference was available to compare their digits with.
#![tactic(auto)]

mod casts;
mod differences;
mod errors;
mod frames;
mod means;
pub mod rows;
mod similarity;

pub use differences::{GreatestDifference, count_above, greatest_difference};
pub use errors::{mean_squared_error, peak_ratio, psnr};
pub use frames::{FrameMeasure, frame_mean_squared_error, frame_ssim, frames_have_one_size};
pub use means::{Mean, StreamQuality};
pub use similarity::ssim;

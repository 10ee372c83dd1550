//! Statistics of pictures: counts of pixels that pass a test, histograms, minimum and maximum, and sums of values and squares.
//! For two pictures of the same size, it also computes the sums that SSIM, covariance and correlation require.
//!
//! All functions read the visible pixels of a plane and ignore its padding. The results are exact, because the integers are
//! wide enough for any picture. The module [`rows`] has the same functions for pixels that are kept outside a plane.
#![tactic(auto)]

mod counts;
mod extremes;
mod histograms;
mod pairs;
mod row_pairs;
mod row_sums;
pub mod rows;
mod summary;
mod sums;

pub use counts::{count_pairs, count_pixels};
pub use extremes::{maximum, minimum};
pub use histograms::{histogram, histogram_of_depth};
pub use pairs::pair_sums;
pub use summary::statistics;
pub use sums::{sum, sum_and_count, variance_sums};

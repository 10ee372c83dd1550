//! The statistics for pixels that are kept outside a [`Plane`](v_frame::plane::Plane), for example in the buffer of a decoder.
//!
//! An input is a [`RowsRef`](v_frame::plane::RowsRef). The functions for planes call these functions.

mod counts;
mod extremes;
mod histograms;
mod pairs;
mod summary;
mod sums;

pub use counts::{count_pairs, count_pixels};
pub use extremes::{maximum, minimum};
pub use histograms::{histogram, histogram_into, histogram_of_depth};
pub use pairs::{PairSums, pair_sums};
pub use summary::{PictureStatistics, statistics};
pub use sums::{SumAndCount, VarianceSums, sum, sum_and_count, variance_sums};

//! The commands of `yuv` that describe one stream: `info` prints the properties in its header, `sum` prints checksums of its
//! frames, and `stats` prints statistics of its samples.
#![tactic(auto)]

mod info;
mod statistics;
mod stats;
mod sum;
mod value_counts;
mod values;

pub use info::do_info;
pub use stats::do_stats;
pub use sum::do_sum;

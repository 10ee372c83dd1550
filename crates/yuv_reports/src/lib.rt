//! The reports of the program `yuv`, as texts: lines for people, comma-separated values and JSON.
//!
//! Each function appends to a `String`, and fails only if there is not enough memory. Numbers for people have two decimals, or six for
//! structural similarity, as in ffmpeg's filters. Numbers for programs have the fewest digits that are read back as the same number.
#![tactic(auto)]

mod comparison;
mod csv;
mod json;
mod lines;
mod planes;
mod pool;
mod samples;

pub use comparison::{Comparison, FrameMeasures, Longer, Report, ReportForm};
pub use pool::Pool;
pub use samples::{Checksums, SampleStatistics, push_checksums, push_histogram, push_statistics};

//! The commands of `yuv` that compare two streams: `compare` prints measures, `plot` draws a chart, and `diff` saves the
//! difference of two frames as a picture.
#![tactic(auto)]

mod compare;
mod diff;
mod frame_report;
mod measures;
mod plot;
mod so_far;

pub use compare::do_compare;
pub use diff::do_diff;
pub use plot::do_plot;

//! The parts that the commands of `yuv` share: input files, output files, the line of `--progress`, the options for streams,
//! errors, and exit statuses.
#![tactic(auto)]

mod above;
mod fault;
mod headers;
mod input;
mod input_file;
mod named_frame;
mod nothing;
mod opening;
mod options;
mod output;
mod progress;
mod report;
mod shown;
mod status;
mod system;

pub use above::write_above;
pub use fault::{Fault, ShownProblem, is_broken};
pub use headers::{
    HeaderDifferences, declared_range, header_differences, matrix_name, range_name, used_matrix,
    used_range, write_differences, write_formats, write_size_of_crop,
};
pub use input::{begin, expected_frames};
pub use input_file::InputFile;
pub use named_frame::{frames_before, read_behind};
pub use nothing::{NothingTaken, nothing_taken, test_compared, write_nothing};
pub use opening::open_file;
pub use options::{
    copy_sink, most_pixels, stream_comparison, stream_copy, taken_of_both, test_limit, test_pixels,
};
pub use output::{Output, Target, is_standard_output, test_target};
pub use progress::ProgressLine;
pub use report::{no_memory, write_made, write_text};
pub use shown::{Shown, counts_shown};
pub use status::Status;
pub use system::System;

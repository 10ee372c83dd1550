//! The program `yuv` over any reader and any writer: from its command-line arguments to the bytes that it writes.
//!
//! `yuv_words` reads the arguments, `v_frame_streams` reads, writes and compares frames, `yuv_reports` and `yuv_pictures` format
//! the results as text and as pictures, and `yuv_files` creates the files. The commands themselves are in `yuv_facts`,
//! `yuv_copies` and `yuv_comparisons`, which translate their options for these crates.
#![tactic(auto)]

mod program;

pub use program::{Streams, VERSION, refuse, run};
pub use yuv_system::Status;

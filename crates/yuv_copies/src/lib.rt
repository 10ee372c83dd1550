//! The commands of `yuv` that write the video that they read: `copy` writes a stream, and `show` writes a frame as a picture.
#![tactic(auto)]

mod copy;
mod show;

pub use copy::{copy_source, do_copy};
pub use show::do_show;

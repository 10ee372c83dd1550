//! The output files and messages of `yuv`. An output file is written under a temporary name beside its target, and replaces the
//! target when it is complete. Messages escape control characters in file names, so that no name can control a terminal.
#![tactic(auto)]

mod destination;
mod kind;
mod message;
mod partial;
mod same_file;
mod system_error;
mod system_file;
mod target;

pub use kind::{FileKind, TargetError, TargetFacts, check_target, kind_of_name};
pub use message::{LaxHeader, shown_name, write_message};
pub use same_file::{STANDARD_OUTPUT, is_any_read, is_read};
pub use system_error::SystemError;
pub use system_file::{Holder, SystemFile};
pub use target::{Loss, TargetFile, Unkept, is_stream_file, target_facts};

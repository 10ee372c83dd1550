//! The command line of the program `yuv`: its arguments are read as a [`Command`], or rejected with a [`UsageError`]. The crate
//! also has the texts of help.
#![tactic(auto)]

mod call;
mod command;
mod error;
mod files;
mod given;
mod option_help;
mod option_name;
mod raw_part;
mod reading;
mod usage;
mod values;
mod word;

pub use call::{help_topic, read_command};
pub use command::{Call, Command, CommandName, Options, RawVideo, Topic};
pub use error::UsageError;
pub use option_name::OptionName;
pub use usage::usage_text;

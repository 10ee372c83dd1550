//! Tests whether two names lead to the same file.

use std::fs::{self, Metadata};
use std::os::unix::fs::MetadataExt;
use std::rt::Files;

/// The system's name for standard output.
pub const STANDARD_OUTPUT: &str = "/proc/self/fd/1";

/// The bits of a mode for the type of a file.
const KIND_BITS: u32 = 0o170000;

/// The type of a pipe, with or without a name.
const PIPE: u32 = 0o010000;

/// Returns whether `name` leads to the same file as one of the input files.
pub fn is_any_read<H: Files>(rt: &H, inputs: &[&str], name: &str) -> bool {
    inputs.iter().any(|input| is_read(rt, input, name))
}

/// Returns whether `name` leads to the same file as an input file. The input file `-` is standard input.
pub fn is_read<H: Files>(rt: &H, input: &str, name: &str) -> bool {
    let input = match input {
        "-" => "/proc/self/fd/0",
        _ => input,
    };
    is_one_file(rt, input, name)
}

/// Returns whether two names lead to the same regular file or the same pipe, which has one device and one inode number. Returns
/// `false` if the system does not report inode numbers.
fn is_one_file<H: Files>(rt: &H, one: &str, other: &str) -> bool {
    let (Ok(one), Ok(other)) = (fs::metadata(rt, one), fs::metadata(rt, other)) else {
        return false;
    };
    (one.is_file() || is_pipe(&one)) && is_one_node(&one, &other)
}

/// Returns whether a file is a pipe. A process that reads from a pipe gets the bytes that are written to it.
fn is_pipe(found: &Metadata) -> bool {
    found.mode() & KIND_BITS == PIPE
}

/// Returns whether two files have the same inode number on the same device. Returns `false` if the system does not report inode
/// numbers.
pub(crate) fn is_one_node(one: &Metadata, other: &Metadata) -> bool {
    one.ino() != 0 && one.ino() == other.ino() && one.dev() == other.dev()
}

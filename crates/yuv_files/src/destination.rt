//! Resolves the name of a target.

use std::fs;
use std::io::{self, ErrorKind};
use std::path::PathBuf;
use std::rt::Files;

/// The largest number of symbolic links in a name, which is also the limit of Linux.
const MOST_LINKS: u32 = 40;

/// The result of resolving a name.
#[derive(Drop)]
pub(crate) enum Destination {
    /// A file that a process has open, as `/dev/fd/3`.
    OpenFile,
    /// The name after all links are followed. A file with this name may or may not exist.
    Name(String),
}

/// Follows the symbolic links of a name. The system's links to open files, as `/dev/fd/3`, are not followed: a process that has a
/// file open continues to use it, even if its name is given to another file.
///
/// # Errors
///
/// An error of the kind [`ErrorKind::FilesystemLoop`] if there are more than 40 links, and the error of the allocator if there is
/// not enough memory.
pub(crate) fn resolve_links<H: Files + AllocGlobal>(rt: &H, name: &str) -> io::Result<Destination> {
    let mut path = PathBuf::from_str(rt.alloc(), name)?;
    for _ in 0..MOST_LINKS {
        if is_open_file(rt, path.as_path().as_str())? {
            return Ok(Destination::OpenFile);
        }
        match fs::read_link(rt, path.as_path()) {
            Ok(link) => {
                // A link is relative to the folder that contains it, or absolute.
                path.pop();
                path.push(link.as_path())?;
            }
            // The path is not a link, or does not exist.
            Err(_) => return Ok(Destination::Name(path.into_string())),
        }
    }
    Err(io::Error::from(ErrorKind::FilesystemLoop))
}

/// Returns whether a name is a link to an open file: whether the folder that contains it, after all links are followed, is one in
/// which the system lists open files.
fn is_open_file<H: Files + AllocGlobal>(rt: &H, name: &str) -> io::Result<bool> {
    let mut folder = PathBuf::from_str(rt.alloc(), name)?;
    folder.pop();
    let found = match folder.as_path().as_str() {
        "" => fs::canonicalize(rt, "."),
        folder => fs::canonicalize(rt, folder),
    };
    match found {
        Ok(folder) => Ok(has_open_files(folder.as_path().as_str())),
        Err(_) => Ok(false),
    }
}

/// Returns whether the system lists open files in a folder, given by its name after all links are followed: `/proc/7/fd`,
/// `/proc/7/task/8/fd`, or `/dev/fd` if it is not a link.
fn has_open_files(folder: &str) -> bool {
    folder == "/dev/fd" || folder.starts_with("/proc/") && folder.ends_with("/fd")
}

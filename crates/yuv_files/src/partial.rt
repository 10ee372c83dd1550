//! Temporary files beside targets, which replace the targets when they are complete.

use crate::same_file::{is_any_read, is_one_node};
use crate::system_file::{Holder, SystemFile};
use std::alloc::{AllocError, Global};
use std::fs::{self, Metadata, OpenFile, OpenOptions, Permissions};
use std::io::{self, ErrorKind};
use std::os::unix::fs::{MetadataExt, OpenOptionsExt, PermissionsExt};
use std::rt::Files;

/// The number of names that are tried for the temporary file of a target.
const MOST_NAMES: u32 = 100;

/// The greatest length in bytes of a shortened name, to which every ending can be added.
const LONGEST_STEM: usize = 245;

/// The greatest length in bytes of a file name.
const LONGEST_NAME: usize = 255;

/// The permission bits of a mode: read, write and execute for owner, group and others.
const ACCESS_BITS: u32 = 0o777;

/// The permission bits, the set-user-ID and set-group-ID bits, and the bit that marks incomplete files.
pub(crate) const MODE_BITS: u32 = 0o7777;

/// The bit of a mode that marks an incomplete file. The system does not use this bit for regular files.
const UNFINISHED: u32 = 0o1000;

/// A temporary file beside a target.
#[derive(Drop)]
pub(crate) struct PartialFile<F> {
    pub(crate) file: F,
    /// The name of the temporary file.
    pub(crate) name: String,
    /// The mode with which the system created it.
    pub(crate) mode: u32,
}

impl<F: OpenFile + SystemFile + Drop> PartialFile<F> {
    /// Creates a temporary file beside `target`. Its name is the name of the target with the ending `.partial`. If a file with
    /// this name exists, it is replaced if an interrupted run left it behind. Otherwise, and if it is one of the files `inputs`,
    /// a number is added to the name. The new file is marked as incomplete, and has at most the permissions of `wanted` if it is
    /// given.
    ///
    /// # Errors
    ///
    /// The error of the system if the file can't be created, and an error of the kind [`ErrorKind::AlreadyExists`] if all names
    /// are taken.
    pub(crate) fn create<H: Files<File = F> + AllocGlobal>(
        rt: &H,
        target: &str,
        inputs: &[&str],
        wanted: Option<u32>,
    ) -> io::Result<Self> {
        for number in 0..MOST_NAMES {
            let name = partial_name(rt.alloc(), target, number)?;
            let created = match create_held(rt, name.as_str(), wanted) {
                Err(error) if error.kind() == ErrorKind::AlreadyExists => {
                    take_over(rt, name.as_str(), inputs, wanted)?
                }
                created => created?,
            };
            if let Some((file, mode)) = created {
                return Ok(PartialFile { file, name, mode });
            }
        }
        Err(io::Error::from(ErrorKind::AlreadyExists))
    }
}

/// Sets the mode of a complete file, which removes the mark of incomplete files.
///
/// # Errors
///
/// The error of the system, unless the file has the wanted mode anyway.
pub(crate) fn finish<F: OpenFile>(file: &F, mode: u32) -> io::Result<()> {
    match file.set_permissions(Permissions::from_mode(mode)) {
        Ok(()) => Ok(()),
        // The file system may not support modes. The error is ignored if the file has the wanted mode anyway.
        Err(error) => match file.metadata() {
            Ok(found) if found.mode() & MODE_BITS == mode => Ok(()),
            _ => Err(error),
        },
    }
}

/// Returns the name of the temporary file with this number. The name of the target is shortened if the result would be longer
/// than the system allows.
fn partial_name(alloc: Global, target: &str, number: u32) -> Result<String, AllocError> {
    let ending = if number == 0 {
        format!(in alloc; ".partial")?
    } else {
        format!(in alloc; ".partial{number}")?
    };
    let ending = ending.as_str();
    let name = match target.rsplit_once('/') {
        Some((_folder, name)) => name,
        None => target,
    };
    if name.len().saturating_add(ending.len()) <= LONGEST_NAME {
        return format!(in alloc; "{target}{ending}");
    }
    let stem = beginning(alloc, name)?;
    let stem = stem.as_str();
    match target.rsplit_once('/') {
        Some((folder, _name)) => format!(in alloc; "{folder}/{stem}{ending}"),
        None => format!(in alloc; "{stem}{ending}"),
    }
}

/// Returns the beginning of a name, as long as any ending can be added to it.
fn beginning(alloc: Global, name: &str) -> Result<String, AllocError> {
    let mut stem = String::new(alloc);
    for letter in name.chars() {
        let mut bytes = [0; 4];
        let text = letter.encode_utf8(&mut bytes);
        if stem.len().saturating_add(text.len()) > LONGEST_STEM {
            break;
        }
        stem.push_str(text)?;
    }
    Ok(stem)
}

/// Creates a file if no file has this name, locks it, and marks it as incomplete. Returns the file and the mode with which it was
/// created, or `None` if another process locked it first. The file is then removed.
fn create_held<H: Files>(
    rt: &H,
    name: &str,
    wanted: Option<u32>,
) -> io::Result<Option<(H::File, u32)>>
where
    H::File: SystemFile,
{
    let mut options = OpenOptions::new();
    options.write(true).create_new(true);
    if let Some(wanted) = wanted {
        // A process that opens the file now keeps its access after the mode is set.
        options.mode(wanted & ACCESS_BITS);
    }
    let file = options.open(rt, name)?;
    let mode = file.metadata()?.mode() & MODE_BITS;
    let access = wanted.unwrap_or(mode) & ACCESS_BITS;
    let mark = match file.hold() {
        Holder::Us => UNFINISHED,
        Holder::Another => {
            fs::remove_file(rt, name)?;
            return Ok(None);
        }
        // Without locks, another run could not see that this one is writing the file, so the file is not marked.
        Holder::Unknown => 0,
    };
    // Some file systems do not support modes, so an error is ignored.
    let _ = file.set_permissions(Permissions::from_mode(access | mark));
    Ok(Some((file, mode)))
}

/// Replaces the incomplete file that an interrupted run left behind. Returns `None` if the name belongs to another file, to one
/// of the files `inputs`, or to a file that another process has locked.
fn take_over<H: Files>(
    rt: &H,
    name: &str,
    inputs: &[&str],
    wanted: Option<u32>,
) -> io::Result<Option<(H::File, u32)>>
where
    H::File: SystemFile,
{
    match fs::symlink_metadata(rt, name) {
        Ok(found) if is_unfinished(&found) => {}
        _ => return Ok(None),
    }
    if is_any_read(rt, inputs, name) {
        return Ok(None);
    }
    let Ok(left) = open_for_writing(rt, name) else {
        return Ok(None);
    };
    if left.hold() != Holder::Us || !has_name(rt, &left, name) {
        return Ok(None);
    }
    fs::remove_file(rt, name)?;
    // The old file stays locked until the new one exists, so that no other run takes it over.
    let created = create_held(rt, name, wanted);
    drop(left);
    match created {
        Err(error) if error.kind() == ErrorKind::AlreadyExists => Ok(None),
        created => created,
    }
}

/// Returns whether a locked file is an incomplete file that still has this name.
fn has_name<H: Files>(rt: &H, left: &H::File, name: &str) -> bool {
    let (Ok(held), Ok(found)) = (left.metadata(), fs::symlink_metadata(rt, name)) else {
        return false;
    };
    is_unfinished(&held) && is_one_node(&held, &found)
}

/// Returns whether a file is marked as incomplete.
fn is_unfinished(found: &Metadata) -> bool {
    found.is_file() && found.mode() & UNFINISHED != 0
}

/// Opens a file for writing, without changing it.
///
/// # Errors
///
/// The error of the system.
pub(crate) fn open_for_writing<H: Files>(rt: &H, name: &str) -> io::Result<H::File> {
    let mut options = OpenOptions::new();
    options.write(true);
    options.open(rt, name)
}

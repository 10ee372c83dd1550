//! Operations on files of the system other than reading and writing.

use std::fs::{File, TryLockError};
use std::io;
use std::os::unix::fs::fchown;

/// The process that has locked a file.
#[derive(Clone, Copy, PartialEq, Eq)]
pub enum Holder {
    /// This process, until the file is closed or the process ends.
    Us,
    /// Another process.
    Another,
    /// This is unknown, because the file system does not support locks.
    Unknown,
}

/// Operations on files of the system other than reading and writing.
pub trait SystemFile {
    /// Locks the file for this process, unless another process has locked it. Returns the process that has locked it.
    fn hold(&self) -> Holder;

    /// Changes the owner and the group of the file to those with these numbers.
    ///
    /// # Errors
    ///
    /// The error of the system, for example if this process may not give files away.
    fn give_to(&self, user: u32, group: u32) -> io::Result<()>;
}

impl SystemFile for File {
    fn hold(&self) -> Holder {
        match self.try_lock() {
            Ok(()) => Holder::Us,
            Err(TryLockError::WouldBlock) => Holder::Another,
            Err(TryLockError::Error(_)) => Holder::Unknown,
        }
    }

    fn give_to(&self, user: u32, group: u32) -> io::Result<()> {
        fchown(self, Some(user), Some(group))
    }
}

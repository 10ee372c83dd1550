//! Errors that the system reports, with the texts of the C library.

use std::fmt;
use std::io::ErrorKind;

/// An error that the system reported. It is displayed as the text that `strerror` has for it, for example `No such file or
/// directory`.
#[derive(Clone, Copy, Drop)]
pub struct SystemError {
    /// The kind of the error.
    pub kind: ErrorKind,
}

impl fmt::Display for SystemError {
    fn fmt<W: fmt::Write>(&self, f: &mut fmt::Formatter<W>) -> fmt::Result {
        match text_of(self.kind) {
            Some(text) => f.write_str(text),
            None => fmt::Display::fmt(&self.kind, f),
        }
    }
}

/// Returns the text of `strerror` for a kind of error, or `None` if the kind stands for several errors of the system or does not
/// occur with files.
fn text_of(kind: ErrorKind) -> Option<&'static str> {
    match kind {
        ErrorKind::NotFound => Some("No such file or directory"),
        ErrorKind::PermissionDenied => Some("Permission denied"),
        ErrorKind::BrokenPipe => Some("Broken pipe"),
        ErrorKind::AlreadyExists => Some("File exists"),
        ErrorKind::NotADirectory => Some("Not a directory"),
        ErrorKind::IsADirectory => Some("Is a directory"),
        ErrorKind::ReadOnlyFilesystem => Some("Read-only file system"),
        ErrorKind::StaleNetworkFileHandle => Some("Stale file handle"),
        ErrorKind::InvalidInput => Some("Invalid argument"),
        ErrorKind::StorageFull => Some("No space left on device"),
        ErrorKind::NotSeekable => Some("Illegal seek"),
        ErrorKind::QuotaExceeded => Some("Disk quota exceeded"),
        ErrorKind::FileTooLarge => Some("File too large"),
        ErrorKind::ResourceBusy => Some("Device or resource busy"),
        ErrorKind::ExecutableFileBusy => Some("Text file busy"),
        ErrorKind::CrossesDevices => Some("Invalid cross-device link"),
        ErrorKind::Interrupted => Some("Interrupted system call"),
        ErrorKind::OutOfMemory => Some("Cannot allocate memory"),
        _ => None,
    }
}

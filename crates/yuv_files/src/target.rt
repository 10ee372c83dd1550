//! Output files of a command. Frames are written to a temporary file beside the target, which replaces the target when it is
//! complete.
ghost use Rattle.std.specs.Prelude.{◌≡◌, ◌≢◌, ◌↔◌, IsNone, IsTrue, None, bit_and};
ghost use Rattle.std.specs.Fs.{metadata_mode};

use crate::destination::{Destination, resolve_links};
use crate::kind::{TargetFacts, kind_of_name};
use crate::partial::{MODE_BITS, PartialFile, finish, open_for_writing};
use crate::same_file::is_any_read;
use crate::system_file::SystemFile;
use std::fmt;
use std::fs::{self, Metadata, OpenFile, OpenOptions};
use std::io::{self, ErrorKind, Read};
use std::os::unix::fs::MetadataExt;
use std::rt::Files;

/// The bits of a mode that a file keeps if its owner or group changes: all but the set-user-ID and set-group-ID bits.
const UNOWNED_BITS: u32 = 0o1777;

/// The file that a command writes for a target: a temporary file that will replace the target, or the target itself.
#[derive(Drop)]
pub struct TargetFile<F> {
    /// The file that is open for writing.
    pub file: F,
    /// The replacement of the target, or `None` if the file is the target itself.
    replacement: Option<Replacement>,
    /// Whether the file is an existing target that is overwritten, and still has its old bytes.
    is_untouched: bool,
    /// The part of the target that can't be kept, if there is one.
    loss: Option<Loss>,
}

/// A temporary file, and the target that it will replace.
#[derive(Drop)]
struct Replacement {
    /// The name of the temporary file.
    partial: String,
    /// The name of the target after all links are followed.
    target: String,
    /// The mode that the file gets when it is complete.
    mode: u32,
    /// Whether the target already exists.
    is_there: bool,
}

/// The reason why a file could not replace its target.
#[derive(Clone, Copy)]
pub enum Unkept {
    /// The target can't be replaced or overwritten. It is unchanged, and the temporary file is removed.
    Replace(ErrorKind),
    /// The target was overwritten, but not completely. The temporary file is complete, and remains beside it.
    Rewrite(ErrorKind),
}

/// The part of a target that can't be kept.
#[derive(Clone, Copy)]
pub enum Loss {
    /// The contents of the target, if the command fails: no temporary file can be created beside it, so it is overwritten.
    Bytes,
    /// The owner or the group of the target.
    Owner,
}

impl fmt::Display for Loss {
    fn fmt<W: fmt::Write>(&self, f: &mut fmt::Formatter<W>) -> fmt::Result {
        f.write_str(match self {
            Loss::Bytes =>
                "no file can be made beside it, so it is rewritten, and lost if that fails",
            Loss::Owner => "its owner or group cannot be kept, so set-ID bits are dropped",
        })
    }
}

/// The first bytes of a YUV4MPEG2 stream.
const MAGIC: &[u8] = b"YUV4MPEG2";

/// Returns the properties of a target: of its name, and of the file with this name if there is one. Only a regular file counts as
/// a stream or an input. The name of a file that this process has open, as `/dev/fd/3`, counts as neither. A file that cannot be
/// read is not a stream.
///
/// # Errors
///
/// The error of the system if the name has too many symbolic links, and an error if there is not enough memory.
pub fn target_facts<H: Files + AllocGlobal>(
    rt: &H,
    name: &str,
    inputs: &[&str],
) -> io::Result<TargetFacts> {
    let named = kind_of_name(rt.alloc(), name)?;
    let is_replaced = match fs::metadata(rt, name) {
        Ok(found) if found.is_file() => { matches!(resolve_links(rt, name)?, Destination::Name(_)) }
        _ => false,
    };
    Ok(TargetFacts {
        named,
        is_stream: is_replaced && is_stream(rt, name),
        is_input: is_replaced && is_any_read(rt, inputs, name),
    })
}

/// Returns whether a name belongs to a regular file that begins as a YUV4MPEG2 stream does.
pub fn is_stream_file<H: Files>(rt: &H, name: &str) -> bool {
    match fs::metadata(rt, name) {
        Ok(found) => found.is_file() && is_stream(rt, name),
        Err(_) => false,
    }
}

/// Returns whether a file begins as a YUV4MPEG2 stream does.
fn is_stream<H: Files>(rt: &H, name: &str) -> bool {
    let mut first = [0; 9];
    match fs::open(rt, name) {
        // A read from a regular file returns fewer bytes than requested only at its end.
        Ok(mut file) => match file.read(&mut first) {
            Ok(9) => first.as_slice() == MAGIC,
            _ => false,
        },
        Err(_) => false,
    }
}

impl<F: OpenFile> TargetFile<F> {
    /// Returns whether the file is the target itself.
    pub fn is_written_in_place(&self) -> bool
        ensures { IsTrue result ↔ IsNone self.now.replacement }
    {
        self.replacement.is_none()
    }

    /// Returns the part of the target that can't be kept, if there is one.
    pub fn loss(&self) -> Option<Loss>
        ensures { result ≡ self.now.loss }
    {
        self.loss
    }

    /// Removes the old bytes of a target that is overwritten.
    ///
    /// # Errors
    ///
    /// The error of the system.
    pub fn begin(&mut self) -> io::Result<()>
        ensures { self.new.file ≡ self.old.file }
    {
        if self.is_untouched {
            self.file.set_len(0)?;
            self.is_untouched = false;
        }
        Ok(())
    }
}

impl<F: OpenFile + SystemFile + Drop> TargetFile<F> {
    /// Opens a temporary file beside the target `name`. Its name differs from those of the files `inputs`. If the target is not a
    /// regular file, for example a device or a pipe, or if it is a file that a process has open, the target itself is opened.
    ///
    /// # Errors
    ///
    /// The error of the system if the target or the temporary file can't be opened for writing. The target is then unchanged.
    pub fn create<H: Files<File = F> + AllocGlobal>(
        rt: &H,
        name: &str,
        inputs: &[&str],
    ) -> io::Result<Self> {
        match fs::metadata(rt, name) {
            Ok(found) if found.is_file() => match resolve_links(rt, name)? {
                Destination::OpenFile => Self::open_at_end(rt, name),
                Destination::Name(target) => Self::replace(rt, target, inputs, &found),
            },
            Ok(_) => Self::open_directly(rt, name),
            Err(error) if error.kind() == ErrorKind::NotFound => match resolve_links(rt, name)? {
                Destination::OpenFile => Err(error),
                Destination::Name(target) => Self::create_beside(rt, target, inputs, None),
            },
            Err(error) => Err(error),
        }
    }

    /// Opens the target itself, and appends to it.
    fn open_at_end<H: Files<File = F>>(rt: &H, name: &str) -> io::Result<Self> {
        let mut options = OpenOptions::new();
        options.append(true);
        Ok(Self::of_target(options.open(rt, name)?))
    }

    /// Opens the target itself.
    fn open_directly<H: Files<File = F>>(rt: &H, name: &str) -> io::Result<Self> {
        Ok(Self::of_target(fs::create(rt, name)?))
    }

    /// Returns an open target that is written directly.
    fn of_target(file: F) -> Self {
        TargetFile {
            file,
            replacement: None,
            is_untouched: false,
            loss: None,
        }
    }

    /// Opens a temporary file beside an existing target, or the target itself if no file can be created beside it.
    fn replace<H: Files<File = F> + AllocGlobal>(
        rt: &H,
        target: String,
        inputs: &[&str],
        found: &Metadata,
    ) -> io::Result<Self> {
        let file = open_for_writing(rt, target.as_str())?;
        match Self::create_beside(rt, target, inputs, Some(found)) {
            Err(error) if takes_no_files(&error) => Ok(TargetFile {
                file,
                replacement: None,
                is_untouched: true,
                loss: Some(Loss::Bytes),
            }),
            created => created,
        }
    }

    /// Opens a temporary file beside the target. If `found` is the metadata of an existing target, the file gets its mode, owner
    /// and group.
    fn create_beside<H: Files<File = F> + AllocGlobal>(
        rt: &H,
        target: String,
        inputs: &[&str],
        found: Option<&Metadata>,
    ) -> io::Result<Self> {
        let wanted = found.map(mode_of);
        let made = PartialFile::create(rt, target.as_str(), inputs, wanted)?;
        let (mode, loss) = match found {
            Some(found) => kept_of(&made.file, found),
            None => (made.mode, None),
        };
        Ok(TargetFile {
            file: made.file,
            replacement: Some(Replacement {
                partial: made.name,
                target,
                mode,
                is_there: found.is_some(),
            }),
            is_untouched: false,
            loss,
        })
    }

    /// Replaces the target with the complete file.
    ///
    /// # Errors
    ///
    /// [`Unkept::Replace`] if the target can't be replaced, and [`Unkept::Rewrite`] if it can only be overwritten and that fails.
    pub fn keep<H: Files<File = F>>(mut self, rt: &H) -> Result<(), Unkept> {
        let begun = self.begin();
        let TargetFile {
            file,
            replacement,
            is_untouched: _,
            loss: _,
        } = self;
        match replacement {
            Some(replacement) => replacement.put(rt, file),
            None => match begun {
                Ok(()) => Ok(()),
                Err(error) => Err(Unkept::Replace(error.kind())),
            },
        }
    }

    /// Removes the temporary file, and leaves the target unchanged.
    pub fn discard<H: Files>(self, rt: &H) {
        let TargetFile {
            file,
            replacement,
            is_untouched: _,
            loss: _,
        } = self;
        if let Some(replacement) = replacement {
            let _ = fs::remove_file(rt, replacement.partial.as_str());
        }
        // The file stays locked until its name is removed, so that no other run takes it over.
        drop(file);
    }
}

impl Replacement {
    /// Replaces the target with the temporary file.
    fn put<H: Files>(self, rt: &H, file: H::File) -> Result<(), Unkept> {
        let (partial, target) = (self.partial.as_str(), self.target.as_str());
        let put = match self.finish(&file) {
            Ok(()) => fs::rename(rt, partial, target),
            Err(error) => Err(error),
        };
        drop(file);
        match put {
            Ok(()) => Ok(()),
            // A mount point, or a file that only its owner may remove from the folder, can't be replaced and is overwritten.
            Err(error) if self.is_there && is_fixed(&error) => rewrite(rt, partial, target),
            Err(error) => {
                let _ = fs::remove_file(rt, partial);
                Err(Unkept::Replace(error.kind()))
            }
        }
    }

    /// Sets the mode of the temporary file. If the target exists, renaming deletes it, so all bytes of the file are first written
    /// to the disk. This may take long, and until then the file is marked as incomplete.
    fn finish<F: OpenFile>(&self, file: &F) -> io::Result<()> {
        if self.is_there {
            file.sync_all()?;
        }
        finish(file, self.mode)
    }
}

/// Copies the temporary file over the target, and removes it. If this fails after the target was changed, the temporary file is
/// kept, because it is complete.
fn rewrite<H: Files>(rt: &H, partial: &str, target: &str) -> Result<(), Unkept> {
    match open_both(rt, partial, target) {
        Ok((from, to)) => match fill(from, to) {
            Ok(()) => {
                let _ = fs::remove_file(rt, partial);
                Ok(())
            }
            Err(error) => Err(Unkept::Rewrite(error.kind())),
        },
        Err(error) => {
            let _ = fs::remove_file(rt, partial);
            Err(Unkept::Replace(error.kind()))
        }
    }
}

/// Opens the file `from` for reading, and the file `to` for writing.
fn open_both<H: Files>(rt: &H, from: &str, to: &str) -> io::Result<(H::File, H::File)> {
    let from = fs::open(rt, from)?;
    let to = open_for_writing(rt, to)?;
    Ok((from, to))
}

/// Replaces the contents of the file `to` with those of the file `from`.
fn fill<F: OpenFile + io::Read + io::Write + Drop>(mut from: F, mut to: F) -> io::Result<()> {
    to.set_len(0)?;
    io::copy(&mut from, &mut to)?;
    to.sync_all()
}

/// Returns whether the error means that no file can be created in a folder.
fn takes_no_files(error: &io::Error) -> bool {
    matches!(
        error.kind(),
        ErrorKind::PermissionDenied | ErrorKind::ReadOnlyFilesystem | ErrorKind::NotFound
    )
}

/// Returns whether the error means that a file can't be replaced under its name.
fn is_fixed(error: &io::Error) -> bool {
    matches!(
        error.kind(),
        ErrorKind::ResourceBusy | ErrorKind::PermissionDenied
    )
}

/// Returns the mode of a file.
fn mode_of(found: &Metadata) -> u32
    ensures { result ≡ bit_and (metadata_mode found.now) 0o7777 }
{
    found.mode() & MODE_BITS
}

/// Gives a new file the owner and the group of the file that it will replace. Returns the mode that it gets, without the
/// set-user-ID and set-group-ID bits if the owner or the group was not kept, and the loss in this case.
fn kept_of<F: OpenFile + SystemFile>(file: &F, found: &Metadata) -> (u32, Option<Loss>)
    ensures kept { result.1 ≡ None → result.0 ≡ bit_and (metadata_mode found.now) 0o7777 }
    ensures lost { result.1 ≢ None → result.0 ≡ bit_and (metadata_mode found.now) 0o1777 }
{
    match give_owner(file, found) {
        Ok(true) => (mode_of(found), None),
        _ => (found.mode() & UNOWNED_BITS, Some(Loss::Owner)),
    }
}

/// Gives a new file the owner and the group of another file, or only the group. Returns whether the file has both.
fn give_owner<F: OpenFile + SystemFile>(file: &F, found: &Metadata) -> io::Result<bool> {
    let own = file.metadata()?;
    if !has_owner(&own, found) && file.give_to(found.uid(), found.gid()).is_err() {
        let _ = file.give_to(own.uid(), found.gid());
    }
    Ok(has_owner(&file.metadata()?, found))
}

/// Returns whether two files have the same owner and the same group.
fn has_owner(one: &Metadata, other: &Metadata) -> bool {
    one.uid() == other.uid() && one.gid() == other.gid()
}

//! The file names among the arguments.
ghost use Rattle.std.specs.Prelude.{List, ℕ, ◌≡◌, ◌<◌, ◌≤◌, ◌++◌, ◌∷◌, [], length, IfOk, IfErr, IfNone, IfSome};
ghost use Rattle.yuv_words.specs.Commands.{AreFiles};
ghost use Rattle.yuv_words.specs.Faults.{HasFileFault, HasLateFile};
ghost use Rattle.yuv_words.specs.Names.{file_count};
ghost use Rattle.yuv_words.specs.Reading.{file_names};
ghost use Rattle.yuv_words.specs.Words.{texts_of};

use crate::command::CommandName;
use crate::error::UsageError;

/// The file names read so far. No command takes more than three.
#[derive(Clone, Copy)]
pub(crate) enum Files<'a> {
    Zero,
    One(&'a str),
    Two(&'a str, &'a str),
    Three(&'a str, &'a str, &'a str),
}

impl<'a> Files<'a> {
    /// Returns the number of files.
    fn count(&self) -> usize
        ensures { result ≡ length (file_names self.now) }
    {
        match self {
            Files::Zero => 0,
            Files::One(_) => 1,
            Files::Two(_, _) => 2,
            Files::Three(_, _, _) => 3,
        }
    }

    /// Returns these files and one more, `name`, or `None` if `command` takes no more files.
    pub(crate) fn with(&self, command: CommandName, name: &'a str) -> Option<Files<'a>>
        ensures some { IfSome result (λ files. file_names files ≡ file_names self.now ++ name.now ∷ []) }
        ensures room { IfSome result (λ _. length (file_names self.now) < file_count command) }
        ensures none { IfNone result (file_count command ≤ length (file_names self.now)) }
    {
        if self.count() >= command.file_count() {
            return None;
        }
        match *self {
            Files::Zero => Some(Files::One(name)),
            Files::One(first) => Some(Files::Two(first, name)),
            Files::Two(first, second) => Some(Files::Three(first, second, name)),
            Files::Three(_, _, _) => None,
        }
    }

    /// Returns these files, followed by more.
    ///
    /// # Errors
    ///
    /// [`UsageError::ExtraFile`] with the first file name that is more than `command` takes.
    pub(crate) fn with_all(
        &self,
        command: CommandName,
        names: &[&'a str],
    ) -> Result<Files<'a>, UsageError<'a>>
        requires few { length (file_names self.now) ≤ file_count command }
        ensures all { IfOk result (λ files. file_names files ≡ file_names self.now ++ texts_of names.now) }
        ensures still_few { IfOk result (λ files. length (file_names files) ≤ file_count command) }
        ensures fault { IfErr result (HasLateFile (file_count command) (file_names self.now) (texts_of names.now)) }
    {
        let mut files = *self;
        for &name in names {
            match files.with(command, name) {
                Some(more) => files = more,
                None => return Err(UsageError::ExtraFile(name)),
            }
        }
        Ok(files)
    }

    /// Returns three names: the files of `command`, followed by empty names.
    ///
    /// # Errors
    ///
    /// [`UsageError::MissingFile`] if there are fewer files than `command` takes.
    pub(crate) fn of(
        &self,
        command: CommandName,
    ) -> Result<(&'a str, &'a str, &'a str), UsageError<'a>>
        requires few { length (file_names self.now) ≤ file_count command }
        ensures said { IfOk result (λ names. AreFiles command names.0.now names.1.now names.2.now (file_names self.now)) }
        ensures refused { IfErr result (λ _. (first second third : List ℕ)
            → ¬ (AreFiles command first second third (file_names self.now))) }
        ensures fault { IfErr result (HasFileFault (file_count command) (file_names self.now)) }
    {
        if self.count() < command.file_count() {
            return Err(UsageError::MissingFile);
        }
        match *self {
            Files::Zero => Ok(("", "", "")),
            Files::One(first) => Ok((first, "", "")),
            Files::Two(first, second) => Ok((first, second, "")),
            Files::Three(first, second, third) => Ok((first, second, third)),
        }
    }
}

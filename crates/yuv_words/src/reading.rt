//! Reads arguments as file names and options.
ghost use Rattle.std.specs.Prelude.{List, ℕ, ◌≡◌, ◌≤◌, ◌++◌, ◌∷◌, [], drop, length, Contains, IfOk, IfErr, None};
ghost use Rattle.std.specs.List.{position_or_len};
ghost use Rattle.yuv_words.specs.Faults.{HasWordFault, Names};
ghost use Rattle.yuv_words.specs.Names.{options_of};
ghost use Rattle.yuv_words.specs.Reading.{given_to, IsRead};
ghost use Rattle.yuv_words.specs.Words.{after_end, before_end, is_end, texts_of};

use crate::command::CommandName;
use crate::error::UsageError;
use crate::files::Files;
use crate::given::Given;
use crate::option_name::OptionName;
use crate::word::{Word, word_of};

/// The files and options that were read so far.
#[derive(Clone, Copy)]
pub(crate) struct Reading<'a> {
    pub(crate) files: Files<'a>,
    pub(crate) given: Given<'a>,
    /// The option whose value is the next argument, if there is one.
    awaiting: Option<OptionName>,
}

/// Returns the arguments before the first `--`, and those after it.
pub(crate) fn cut_at_end<'b, 'a>(words: &'b [&'a str]) -> (&'b [&'a str], &'b [&'a str])
    ensures before { texts_of result.0.now ≡ before_end (texts_of words.now) }
    ensures after { texts_of result.1.now ≡ after_end (texts_of words.now) }
{
    let (front, behind) = words.split_at(end_place(words));
    (front, without_first(behind))
}

/// Returns the index of the first `--`, or the number of arguments if there is none.
fn end_place(words: &[&str]) -> usize
    ensures place { result ≡ position_or_len is_end (texts_of words.now) }
    ensures bound { result ≤ length words.now }
{
    for (at, word) in words.iter().enumerate() {
        if is_end_word(word) {
            return at;
        }
    }
    words.len()
}

/// Returns whether an argument is `--`.
fn is_end_word(word: &str) -> bool
    ensures { result ≡ is_end word.now }
{
    word == "--"
}

/// Returns the arguments after the first one.
fn without_first<'b, 'a>(words: &'b [&'a str]) -> &'b [&'a str]
    ensures { result.now ≡ drop 1 words.now }
{
    match words {
        [] => words,
        [_, rest @ ..] => rest,
    }
}

/// Reads the arguments before `--`.
///
/// # Errors
///
/// The error of the first argument that is rejected, as in [`Reading::take`], and [`UsageError::MissingValue`] if the last
/// argument is an option whose value is missing.
pub(crate) fn read_words<'a>(
    command: CommandName,
    words: &[&'a str],
) -> Result<Reading<'a>, UsageError<'a>>
    ensures read { IfOk result (IsRead command (texts_of words.now)) }
    ensures ended { IfOk result (λ reading. reading.awaiting ≡ None) }
    ensures fault { IfErr result (HasWordFault command (texts_of words.now)) }
{
    let mut reading = Reading {
        files: Files::Zero,
        given: Given::new(),
        awaiting: None,
    };
    for &word in words {
        reading.take(command, word)?;
    }
    match reading.awaiting {
        Some(option) => Err(UsageError::MissingValue(option)),
        None => Ok(reading),
    }
}

impl<'a> Reading<'a> {
    /// Reads one more argument.
    ///
    /// # Errors
    ///
    /// [`UsageError::UnknownOption`] if it begins with a dash but is not an option, [`UsageError::NotOfCommand`] if `command`
    /// does not have the option, [`UsageError::Repeated`] if the option was given before, [`UsageError::NeedlessValue`] if it has
    /// a value and takes none, and [`UsageError::ExtraFile`] if it is a file name and `command` takes no more files.
    fn take(&mut self, command: CommandName, word: &'a str) -> Result<(), UsageError<'a>>
        ensures read { IfOk result (λ _. (words : List (List ℕ)) → IsRead command words self.old
            → IsRead command (words ++ word.now ∷ []) self.new) }
        ensures fault { IfErr result (λ error. (words rest : List (List ℕ)) → IsRead command words self.old
            → HasWordFault command (words ++ word.now ∷ rest) error) }
    {
        if let Some(option) = self.awaiting {
            self.awaiting = None;
            self.given.set(option, word);
            return Ok(());
        }
        match word_of(word) {
            Word::File => match self.files.with(command, word) {
                Some(files) => {
                    self.files = files;
                    Ok(())
                }
                None => Err(UsageError::ExtraFile(word)),
            },
            Word::Option(option) => {
                self.admit(command, option)?;
                if option.takes_value() {
                    self.awaiting = Some(option);
                    return Ok(());
                }
                self.given.set(option, "");
                Ok(())
            }
            Word::Joined(option, value) => {
                self.admit(command, option)?;
                if !option.takes_value() {
                    return Err(UsageError::NeedlessValue { option, value });
                }
                self.given.set(option, value);
                Ok(())
            }
            Word::Unknown => Err(UsageError::UnknownOption(word)),
        }
    }

    /// Rejects an option that `command` does not have, or that is given a second time.
    fn admit(&self, command: CommandName, option: OptionName) -> Result<(), UsageError<'a>>
        ensures own { IfOk result (λ _. Contains (options_of command) option) }
        ensures first { IfOk result (λ _. given_to self.now.given option ≡ []) }
        ensures fault { IfErr result (λ error. (word : List ℕ) (words rest : List (List ℕ)) → Names word option
            → self.now.awaiting ≡ None → IsRead command words self.now
            → HasWordFault command (words ++ word ∷ rest) error) }
    {
        if !command.takes(option) {
            return Err(UsageError::NotOfCommand { option, command });
        }
        if self.given.has(option) {
            return Err(UsageError::Repeated(option));
        }
        Ok(())
    }
}

//! Reads the arguments of the program as a command.
ghost use Rattle.std.specs.Prelude.{◌≡◌, ◌≢◌, ◌≤◌, ◌↔◌, ◌∷◌, length, IfErr, IfOk, IsSome, IsTrue, MatchOption};
ghost use Rattle.yuv_words.specs.Calls.{is_help_option as is_help, formats_word, AsksHelp, IsCall, IsHelpWord, IsTopic, IsVersionWord, IsWrittenAs, NamesTopic};
ghost use Rattle.yuv_words.specs.Faults.{HasFault, HasTopicFault, IsRefusedFor};
ghost use Rattle.yuv_words.specs.Names.{command_text, file_count};
ghost use Rattle.yuv_words.specs.Reading.{file_names, HasSaidFault, IsSaid};
ghost use Rattle.yuv_words.specs.Words.{texts_of};
ghost use Rattle.yuv_words.specs.declared.command.Command.{Command as TheCommand};
ghost use Rattle.yuv_words.specs.declared.command.CommandName.{CommandName as TheName};
ghost use Rattle.yuv_words.specs.declared.command.Topic.{Topic as TheTopic};

use crate::command::{Call, Command, CommandName, Topic};
use crate::error::UsageError;
use crate::files::Files;
use crate::given::Given;
use crate::reading::{cut_at_end, read_words};

/// Reads the arguments of the program, without the name of the program itself.
///
/// # Errors
///
/// Returns the first [`UsageError`] in this order: the command, the arguments from left to right, the files, the values of
/// options.
pub fn read_command<'a>(words: &[&'a str]) -> Result<Command<'a>, UsageError<'a>>
    ensures said { IfOk result (IsWrittenAs (texts_of words.now)) }
    ensures refused { IfErr result (λ _. (command : TheCommand) → ¬ (IsWrittenAs (texts_of words.now) command)) }
    ensures fault { IfErr result (IsRefusedFor (texts_of words.now)) }
{
    let Some((&first, rest)) = words.split_first() else {
        return Err(UsageError::NoCommand);
    };
    match CommandName::named(first) {
        Some(name) => read_call(name, rest),
        None => read_help(first, rest),
    }
}

/// Returns the first argument if a later one, before any `--`, requests help: `--help` or `-h`. All other arguments are then
/// ignored.
pub fn help_topic<'a>(words: &[&'a str]) -> Option<&'a str>
    ensures asked { IsSome result ↔ AsksHelp (texts_of words.now) }
{
    let Some((&first, rest)) = words.split_first() else {
        return None;
    };
    let (front, _behind) = cut_at_end(rest);
    for word in front {
        if is_help_option(*word) {
            return Some(first);
        }
    }
    None
}

/// Returns whether an argument after a command requests help: whether it is `--help` or `-h`.
fn is_help_option(word: &str) -> bool
    ensures { result ≡ is_help word.now }
{
    word == "--help" || word == "-h"
}

/// Reads arguments of which the first is not a command that takes files: those of `help` and `version`.
fn read_help<'a>(first: &'a str, rest: &[&'a str]) -> Result<Command<'a>, UsageError<'a>>
    requires { (name : TheName) → first.now ≢ command_text name }
    ensures said { IfOk result (IsWrittenAs (first.now ∷ texts_of rest.now)) }
    ensures refused { IfErr result (λ _. (command : TheCommand)
        → ¬ (IsWrittenAs (first.now ∷ texts_of rest.now) command)) }
    ensures fault { IfErr result (IsRefusedFor (first.now ∷ texts_of rest.now)) }
{
    if is_help(first) {
        let topic = read_topic(rest)?;
        return Ok(Command::Help(topic));
    }
    if !is_version(first) {
        return Err(UsageError::UnknownCommand(first));
    }
    match rest {
        [] => Ok(Command::Version),
        [extra, ..] => Err(UsageError::ExtraWord(*extra)),
    }
}

/// Returns whether the first argument requests help: whether it is `help`, `--help` or `-h`.
fn is_help(word: &str) -> bool
    ensures { IsTrue result ↔ IsHelpWord word.now }
{
    word == "help" || word == "--help" || word == "-h"
}

/// Returns whether the first argument requests the version: whether it is `version`, `--version` or `-V`.
fn is_version(word: &str) -> bool
    ensures { IsTrue result ↔ IsVersionWord word.now }
{
    word == "version" || word == "--version" || word == "-V"
}

/// Returns the help topic that the arguments after `help` name: the program if there are none.
///
/// # Errors
///
/// [`UsageError::UnknownCommand`] if the argument names no topic, and [`UsageError::ExtraWord`] if there is more than one.
fn read_topic<'a>(words: &[&'a str]) -> Result<Topic, UsageError<'a>>
    ensures said { IfOk result (λ topic. IsTopic topic (texts_of words.now)) }
    ensures refused { IfErr result (λ _. (topic : TheTopic) → ¬ (IsTopic topic (texts_of words.now))) }
    ensures fault { IfErr result (HasTopicFault (texts_of words.now)) }
{
    match words {
        [] => Ok(Topic::Program),
        [topic] => match topic_named(*topic) {
            Some(topic) => Ok(topic),
            None => Err(UsageError::UnknownCommand(*topic)),
        },
        [_, extra, ..] => Err(UsageError::ExtraWord(*extra)),
    }
}

/// Returns the help topic that an argument names, or `None` if it names none.
fn topic_named(word: &str) -> Option<Topic>
    ensures { MatchOption result ((topic : TheTopic) → ¬ (NamesTopic topic word.now))
        (λ topic. NamesTopic topic word.now) }
{
    if let Some(name) = CommandName::named(word) {
        return Some(Topic::Command(name));
    }
    if is_formats(word) {
        return Some(Topic::Formats);
    }
    if is_help(word) || is_version(word) {
        return Some(Topic::Program);
    }
    None
}

/// Returns whether an argument names the list of formats.
fn is_formats(word: &str) -> bool
    ensures { IsTrue result ↔ (word.now ≡ formats_word) }
{
    word == "formats"
}

/// Reads the arguments that follow the command `name`.
fn read_call<'a>(name: CommandName, words: &[&'a str]) -> Result<Command<'a>, UsageError<'a>>
    ensures said { IfOk result (λ command. IsCall name command (texts_of words.now)) }
    ensures refused { IfErr result (λ _. (command : TheCommand) → ¬ (IsCall name command (texts_of words.now))) }
    ensures fault { IfErr result (HasFault name (texts_of words.now)) }
{
    let (front, behind) = cut_at_end(words);
    let reading = read_words(name, front)?;
    let files = reading.files.with_all(name, behind)?;
    command_of(name, &files, &reading.given)
}

/// Returns the command `name` with these files and options.
fn command_of<'a>(
    name: CommandName,
    files: &Files<'a>,
    given: &Given<'a>,
) -> Result<Command<'a>, UsageError<'a>>
    requires few { length (file_names files.now) ≤ file_count name }
    ensures said { IfOk result (IsSaid given.now files.now name) }
    ensures refused { IfErr result (λ _. (command : TheCommand) → ¬ (IsSaid given.now files.now name command)) }
    ensures fault { IfErr result (HasSaidFault given.now files.now name) }
{
    let (first, second, third) = files.of(name)?;
    let options = given.options()?;
    Ok(Command::Call(Call {
        name,
        first,
        second,
        third,
        options,
    }))
}

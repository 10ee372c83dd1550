//! Errors in the arguments of the program.

use crate::command::CommandName;
use crate::option_name::OptionName;
use crate::raw_part::raw_part;
use std::fmt;

/// The reason why the arguments of the program are rejected.
#[derive(Drop)]
pub enum UsageError<'a> {
    /// There are no arguments.
    NoCommand,
    /// The first argument is not a command, or the argument after `help` is not a help topic.
    UnknownCommand(&'a str),
    /// This argument follows all arguments that `help` or `version` takes.
    ExtraWord(&'a str),
    /// The argument begins with a dash, but is not an option.
    UnknownOption(&'a str),
    /// The command does not have the option.
    NotOfCommand {
        /// The option.
        option: OptionName,
        /// The command.
        command: CommandName,
    },
    /// The option is given twice.
    Repeated(OptionName),
    /// The option takes a value, but is the last argument.
    MissingValue(OptionName),
    /// The option takes no value, but is given one.
    NeedlessValue {
        /// The option.
        option: OptionName,
        /// The value that was given.
        value: &'a str,
    },
    /// The text is not a value of the option.
    NotAValue {
        /// The option.
        option: OptionName,
        /// The text.
        word: &'a str,
    },
    /// Both `--csv` and `--json` are given.
    TwoForms,
    /// There are fewer files than the command takes.
    MissingFile,
    /// There are more files than the command takes, and this is the first that is too many.
    ExtraFile(&'a str),
    /// An argument is not valid UTF-8. [`read_command`](crate::read_command) takes arguments that are, and never returns this
    /// error.
    NotUnicode,
}

// Written by hand: the derived implementation for this many variants takes longer to prove.
impl fmt::Display for UsageError<'_> {
    fn fmt<W: fmt::Write>(&self, f: &mut fmt::Formatter<W>) -> fmt::Result {
        match self {
            UsageError::NoCommand => f.write_str("missing command"),
            UsageError::UnknownCommand(word) => write!(f, "unknown command '{word}'"),
            UsageError::ExtraWord(word) => write!(f, "unexpected argument '{word}'"),
            UsageError::UnknownOption(word) => write!(f, "unknown option '{word}'"),
            UsageError::MissingFile => f.write_str("missing FILE argument"),
            UsageError::ExtraFile(name) => write!(f, "too many files: unexpected '{name}'"),
            UsageError::TwoForms => f.write_str("--csv and --json cannot be combined"),
            UsageError::NotUnicode => f.write_str("an argument is not valid UTF-8"),
            of_option => of_option.write_option(f),
        }
    }
}

impl UsageError<'_> {
    /// Writes the message for an error in an option.
    fn write_option<W: fmt::Write>(&self, f: &mut fmt::Formatter<W>) -> fmt::Result {
        match self {
            UsageError::NotOfCommand { option, command } => {
                write!(f, "{} has no option {}", command.text(), option.text())
            }
            UsageError::Repeated(option) => write!(f, "{} given twice", option.text()),
            UsageError::MissingValue(option) => {
                write!(f, "{} requires {}", option.text(), option.needs())
            }
            UsageError::NeedlessValue { option, value } => {
                write!(f, "{} takes no value, found '{value}'", option.text())
            }
            UsageError::NotAValue { option, word } => write_value(f, *option, *word),
            _ => Ok(()),
        }
    }
}

/// Writes that a text is not a value of an option. For headerless video, the message names the part that is wrong.
fn write_value<W: fmt::Write>(
    f: &mut fmt::Formatter<W>,
    option: OptionName,
    word: &str,
) -> fmt::Result {
    let name = option.text();
    match option {
        OptionName::Raw | OptionName::RawSecond => {
            let part = raw_part(word);
            write!(f, "invalid {name} '{word}': {part}")
        }
        _ => {
            let needs = option.needs();
            write!(f, "{name} requires {needs}, not '{word}'")
        }
    }
}

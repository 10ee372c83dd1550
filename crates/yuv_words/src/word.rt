//! Classifies single arguments as file names and options.
ghost use Rattle.std.specs.Prelude.{List, ℕ, ◌≡◌, ◌↔◌, IsTrue};
ghost use Rattle.yuv_words.specs.Reading.{IsWord};
ghost use Rattle.yuv_words.specs.Words.{IsFileWord};

use crate::option_name::OptionName;

/// The kind of an argument before `--`.
#[derive(Clone, Copy)]
pub(crate) enum Word<'a> {
    /// A file name.
    File,
    /// An option. If it takes a value, the value is the next argument.
    Option(OptionName),
    /// An option with its value after an equals sign.
    Joined(OptionName, &'a str),
    /// Neither a file name nor an option.
    Unknown,
}

/// Returns the kind of an argument.
pub(crate) fn word_of(word: &str) -> Word<'_>
    ensures { IsWord word.now result }
{
    if is_file(word.as_bytes()) {
        return Word::File;
    }
    match word.split_once('=') {
        Some((name, value)) => match OptionName::named(name) {
            Some(option) => Word::Joined(option, value),
            None => Word::Unknown,
        },
        None => match OptionName::named(word) {
            Some(option) => Word::Option(option),
            None => Word::Unknown,
        },
    }
}

/// Returns whether an argument before `--` is a file name: whether it does not begin with a dash, or is a single dash.
fn is_file(word: &[u8]) -> bool
    ensures { IsTrue result ↔ IsFileWord word.now }
{
    match word {
        [b'-'] => true,
        [b'-', ..] => false,
        _ => true,
    }
}

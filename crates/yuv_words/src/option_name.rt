//! The names of options and commands, the values that options take, and the options and the number of files of each command.
ghost use Rattle.std.specs.Prelude.{◌≡◌, ◌≢◌, ◌<◌, ◌↔◌, is_some, Contains, IsTrue, MatchOption};
ghost use Rattle.yuv_words.specs.Names.{command_text, file_count as count_of_files, option_text, options_of, takes_value as has_value};
ghost use Rattle.yuv_words.specs.Reading.{option_place};
ghost use Rattle.yuv_words.specs.declared.command.CommandName.{CommandName as TheCommand};
ghost use Rattle.yuv_words.specs.declared.option_name.OptionName.{OptionName as TheOption};

use crate::command::CommandName;
use crate::option_help::{
    ASPECT, COUNT, CROP, CSV, EXACT, FORCE, FORMAT, FRAME, FRAMES, GAIN, HALF, HEADER, HISTOGRAM,
    JSON, MATRIX, MAX_PIXELS, PLANE, PLANES, PROGRESS, RANGE, RATE, RAW, RAW_OUTPUT, RAW_SECOND,
    SALVAGE, SKIP, SKIP_SECOND, SSIM,
};
use crate::option_name::OptionName::{
    Aspect, Count, Crop, Csv, Exact, Force, Format, Frame, Frames, Gain, Half, Header, Histogram,
    Json, Matrix, MaxPixels, Plane, Planes, Progress, Range, Rate, Raw, RawOutput, RawSecond,
    Salvage, Skip, SkipSecond, Ssim,
};

/// The name of an option.
#[derive(Debug, Clone, Copy, PartialEq, Eq)]
pub enum OptionName {
    Header,
    Ssim,
    Frames,
    Exact,
    Csv,
    Json,
    Half,
    Planes,
    Histogram,
    RawOutput,
    Progress,
    Force,
    Salvage,
    Raw,
    RawSecond,
    MaxPixels,
    Skip,
    SkipSecond,
    Count,
    Crop,
    Format,
    Rate,
    Aspect,
    Frame,
    Matrix,
    Range,
    Plane,
    Gain,
}

/// The number of options.
pub(crate) const OPTION_COUNT: usize = 28;

/// All options.
const OPTIONS: [OptionName; OPTION_COUNT] = [
    Header, Ssim, Frames, Exact, Csv, Json, Half, Planes, Histogram, RawOutput, Progress, Force,
    Salvage, Raw, RawSecond, MaxPixels, Skip, SkipSecond, Count, Crop, Format, Rate, Aspect, Frame,
    Matrix, Range, Plane, Gain,
];

/// All commands that take files.
const COMMANDS: [CommandName; 8] = [
    CommandName::Info,
    CommandName::Compare,
    CommandName::Copy,
    CommandName::Sum,
    CommandName::Stats,
    CommandName::Show,
    CommandName::Diff,
    CommandName::Plot,
];

impl OptionName {
    /// Returns the text of the option with its dashes, a description of its value if it takes one, and its help.
    fn row(self) -> (&'static str, Option<&'static str>, &'static str)
        ensures text { result.0.now ≡ option_text self }
        ensures value { is_some result.1 ≡ has_value self }
    {
        match self {
            Header => ("--header", None, HEADER),
            Ssim => ("--ssim", None, SSIM),
            Frames => ("--frames", None, FRAMES),
            Exact => ("--exact", None, EXACT),
            Csv => ("--csv", None, CSV),
            Json => ("--json", None, JSON),
            Half => ("--half", None, HALF),
            Planes => ("--planes", None, PLANES),
            Histogram => ("--histogram", None, HISTOGRAM),
            RawOutput => ("--raw-output", None, RAW_OUTPUT),
            Progress => ("--progress", None, PROGRESS),
            Force => ("--force", None, FORCE),
            Salvage => ("--salvage", None, SALVAGE),
            Raw => ("--raw", Some("WIDTHxHEIGHT:FORMAT[@RATE]"), RAW),
            RawSecond => (
                "--raw-second",
                Some("WIDTHxHEIGHT:FORMAT[@RATE]"),
                RAW_SECOND,
            ),
            MaxPixels => ("--max-pixels", Some("a whole number"), MAX_PIXELS),
            Skip => ("--skip", Some("a whole number"), SKIP),
            SkipSecond => ("--skip-second", Some("a whole number"), SKIP_SECOND),
            Count => ("--count", Some("a whole number"), COUNT),
            Crop => (
                "--crop",
                Some("X,Y,WIDTH,HEIGHT with at least 1x1 pixels"),
                CROP,
            ),
            Format => (
                "--format",
                Some("a format that 'yuv help formats' lists"),
                FORMAT,
            ),
            Rate => (
                "--rate",
                Some("a rate above 0, as 25, 30000:1001 or 30000/1001"),
                RATE,
            ),
            Aspect => ("--aspect", Some("two numbers, as 4:3"), ASPECT),
            Frame => ("--frame", Some("a whole number"), FRAME),
            Matrix => ("--matrix", Some("bt601, bt709 or bt2020"), MATRIX),
            Range => ("--range", Some("limited or full"), RANGE),
            Plane => ("--plane", Some("y, u or v"), PLANE),
            Gain => ("--gain", Some("a number from 1 to 65535"), GAIN),
        }
    }

    /// Returns the text of the option with its dashes, as `--csv`.
    pub fn text(self) -> &'static str
        ensures { result.now ≡ option_text self }
    {
        self.row().0
    }

    /// Returns a description of the value, or an empty text if the option takes no value.
    pub(crate) fn needs(self) -> &'static str {
        self.row().1.unwrap_or("")
    }

    /// Returns the help of the option: one or more lines, of which the first begins with the option.
    pub fn help(self) -> &'static str {
        self.row().2
    }

    /// Returns whether the option takes a value.
    pub(crate) fn takes_value(self) -> bool
        ensures { result ≡ has_value self }
    {
        self.row().1.is_some()
    }

    /// Returns the index of the option in the list of all options.
    pub(crate) fn place(self) -> usize
        ensures place { result ≡ option_place self }
        ensures below { result < OPTION_COUNT }
    {
        self as usize
    }

    /// Returns the option with this text, or `None` if there is none.
    pub(crate) fn named(word: &str) -> Option<Self>
        ensures { MatchOption result ((n : TheOption) → word.now ≢ option_text n)
            (λ n. word.now ≡ option_text n) }
    {
        for option in OPTIONS {
            if option.is_written(word) {
                return Some(option);
            }
        }
        None
    }

    /// Returns whether `word` is the text of the option.
    fn is_written(self, word: &str) -> bool
        ensures { IsTrue result ↔ (word.now ≡ option_text self) }
    {
        word == self.text()
    }
}

impl CommandName {
    /// Returns the name of the command, as `compare`.
    pub fn text(self) -> &'static str
        ensures { result.now ≡ command_text self }
    {
        match self {
            CommandName::Info => "info",
            CommandName::Compare => "compare",
            CommandName::Copy => "copy",
            CommandName::Sum => "sum",
            CommandName::Stats => "stats",
            CommandName::Show => "show",
            CommandName::Diff => "diff",
            CommandName::Plot => "plot",
        }
    }

    /// Returns the command with this name, or `None` if there is none.
    pub(crate) fn named(word: &str) -> Option<Self>
        ensures { MatchOption result ((k : TheCommand) → word.now ≢ command_text k)
            (λ k. word.now ≡ command_text k) }
    {
        for command in COMMANDS {
            if command.is_written(word) {
                return Some(command);
            }
        }
        None
    }

    /// Returns whether `word` is the name of the command.
    fn is_written(self, word: &str) -> bool
        ensures { IsTrue result ↔ (word.now ≡ command_text self) }
    {
        word == self.text()
    }

    /// Returns the number of files that the command takes.
    pub(crate) fn file_count(self) -> usize
        ensures { result ≡ count_of_files self }
    {
        match self {
            CommandName::Info | CommandName::Sum | CommandName::Stats => 1,
            CommandName::Compare | CommandName::Copy | CommandName::Show => 2,
            CommandName::Diff | CommandName::Plot => 3,
        }
    }

    /// Returns the options of the command, in the order in which help lists them.
    pub fn options(self) -> &'static [OptionName]
        ensures { result.now ≡ options_of self }
    {
        match self {
            CommandName::Info => &[Header, Raw, MaxPixels, Progress],
            CommandName::Compare => &[
                Ssim, Frames, Exact, Csv, Json, Skip, SkipSecond, Count, Raw, RawSecond, MaxPixels,
                Progress,
            ],
            CommandName::Copy => &[
                Skip, Count, Crop, Half, Format, Rate, Aspect, Raw, RawOutput, Salvage, Force,
                MaxPixels, Progress,
            ],
            CommandName::Sum => &[Planes, Skip, Count, Raw, MaxPixels, Progress],
            CommandName::Stats => &[Histogram, Range, Skip, Count, Raw, MaxPixels, Progress],
            CommandName::Show => &[Frame, Matrix, Range, Plane, Crop, Raw, Force, MaxPixels],
            CommandName::Diff => &[Frame, Gain, Raw, RawSecond, Force, MaxPixels],
            CommandName::Plot => &[
                Skip, SkipSecond, Count, Raw, RawSecond, Force, MaxPixels, Progress,
            ],
        }
    }

    /// Returns whether the command has this option.
    pub(crate) fn takes(self, option: OptionName) -> bool
        ensures { IsTrue result ↔ Contains (options_of self) option }
    {
        self.options().contains(&option)
    }
}

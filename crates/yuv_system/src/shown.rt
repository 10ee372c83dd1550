//! Selects the frame counts that `--progress` shows.
ghost use Rattle.std.specs.Prelude.{◌≡◌};
ghost use Rattle.yuv_system.specs.ProgressLines.{asks_progress, beside_output, beside_report, shown_counts};

use yuv_reports::ReportForm;
use yuv_words::{Command, CommandName, Options};

/// The frame counts that `--progress` shows.
#[derive(Clone, Copy)]
pub enum Shown {
    /// No counts.
    NoCount,
    /// Only the last count, on a separate line.
    LastCount,
    /// A count every tenth of a second, each in place of the one before, and the last count.
    EachCount,
}

/// Returns the counts that a command shows on standard error: none unless `--progress` is given and standard error is a terminal.
/// If standard output is a terminal too, no count is shown on a line that the command writes.
pub fn counts_shown(command: &Command<'_>, is_terminal: bool, output_is_terminal: bool) -> Shown
    ensures { result ≡ shown_counts command.now is_terminal output_is_terminal }
{
    if !is_terminal || !asks_for_progress(command) {
        return Shown::NoCount;
    }
    if output_is_terminal {
        return shown_beside_output(command);
    }
    Shown::EachCount
}

/// Returns whether a command has the option `--progress`.
fn asks_for_progress(command: &Command<'_>) -> bool
    ensures { result ≡ asks_progress command.now }
{
    match command {
        Command::Call(call) => call.options.progress,
        _ => false,
    }
}

/// Returns the counts that are shown if the results of a command are written to the same terminal.
fn shown_beside_output(command: &Command<'_>) -> Shown
    ensures { result ≡ beside_output command.now }
{
    match command {
        Command::Call(call) => match call.name {
            CommandName::Sum => Shown::LastCount,
            CommandName::Compare => shown_beside_report(&call.options),
            _ => Shown::EachCount,
        },
        _ => Shown::EachCount,
    }
}

/// Returns the counts that are shown if a report is written to the same terminal. A report with a line for each frame has
/// complete lines between two frames, but the last line of a frame in JSON ends only when the next frame is written.
fn shown_beside_report(options: &Options) -> Shown
    ensures { result ≡ beside_report options.now.form options.now.frames }
{
    match options.form {
        ReportForm::Json => Shown::NoCount,
        ReportForm::Csv => Shown::LastCount,
        ReportForm::Lines if options.frames => Shown::LastCount,
        ReportForm::Lines => Shown::EachCount,
    }
}

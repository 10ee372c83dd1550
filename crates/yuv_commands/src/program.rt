//! The program: it reads its arguments, runs the command and reports errors.
ghost use Rattle.std.specs.Prelude.{◌≡◌, ◌⊎◌};
ghost use Rattle.yuv_system.specs.declared.status.Status.TheVariants.{Closed, Failed};
ghost use Rattle.yuv_words.specs.Calls.{AsksHelp, IsWrittenAs};
ghost use Rattle.yuv_words.specs.Words.{texts_of};
ghost use Rattle.yuv_words.specs.declared.command.Command.{Command as TheCommand};

use std::io;
use std::rt::Files;
use std::time::Clock;
use v_frame_streams::Place;
use yuv_comparisons::{do_compare, do_diff, do_plot};
use yuv_copies::{do_copy, do_show};
use yuv_facts::{do_info, do_stats, do_sum};
use yuv_files::{SystemFile, shown_name, write_message};
use yuv_system::{Fault, ProgressLine, Status, System, counts_shown, write_text};
use yuv_words::{Command, CommandName, Topic, UsageError, help_topic, read_command, usage_text};

/// The text that `yuv version` prints.
pub const VERSION: &str = "yuv 0.4.0\n";

/// The name of standard output in a message.
const STANDARD_OUTPUT: &str = "standard output";

/// The reason why a command does not write video or a PNG picture to a terminal.
const TERMINAL: &str = "it is a terminal; redirect it, or name a file";

/// The standard streams of a program.
#[derive(Drop)]
pub struct Streams<I, O, E> {
    /// Standard input.
    pub input: I,
    /// Standard output.
    pub output: O,
    /// Standard error.
    pub error: E,
    /// Whether standard error is a terminal, so that `--progress` shows a count.
    pub is_terminal: bool,
    /// Whether standard output is a terminal. Lines for frames would then mix with the frame count, and video and PNG pictures
    /// are not written.
    pub output_is_terminal: bool,
}

/// Runs the command that the arguments `words` request, and returns the exit status. The arguments do not include the name of the
/// program.
pub fn run<H, I, O, E>(rt: &H, words: &[&str], streams: Streams<I, O, E>) -> Status
where
    H: Files + AllocGlobal + Clock,
    H::File: SystemFile,
    I: io::Read + Drop,
    O: io::Write + Drop,
    E: io::Write + Drop,
    ensures refused { ¬ (AsksHelp (texts_of words.now))
        → ((command : TheCommand) → ¬ (IsWrittenAs (texts_of words.now) command)) → result ≡ Failed }
{
    match help_topic(words) {
        Some(topic) => run_words(rt, &["help", topic], streams),
        None => run_words(rt, words, streams),
    }
}

/// Runs the command that the arguments `words` request. The first one is its name.
fn run_words<H, I, O, E>(rt: &H, words: &[&str], streams: Streams<I, O, E>) -> Status
where
    H: Files + AllocGlobal + Clock,
    H::File: SystemFile,
    I: io::Read + Drop,
    O: io::Write + Drop,
    E: io::Write + Drop,
    ensures refused { ((command : TheCommand) → ¬ (IsWrittenAs (texts_of words.now) command))
        → result ≡ Failed }
{
    let Streams {
        input,
        output,
        mut error,
        is_terminal,
        output_is_terminal,
    } = streams;
    let command = match read_command(words) {
        Ok(command) => command,
        Err(refusal) => return refuse(&refusal, &mut error),
    };
    if output_is_terminal && writes_data(&command) {
        write_message(&mut error, Some(STANDARD_OUTPUT), &TERMINAL);
        return Status::Failed;
    }
    let shown = counts_shown(&command, is_terminal, output_is_terminal);
    let progress = ProgressLine::new(rt, error, shown);
    let mut system = System {
        rt,
        input: Some(input),
        output,
        progress,
    };
    let done = do_command(&mut system, &command);
    system.progress.end();
    match done {
        Ok(status) => status,
        Err(fault) => give_up(&mut system, &command, fault),
    }
}

/// Returns whether a command writes video or a PNG picture to standard output.
fn writes_data(command: &Command<'_>) -> bool {
    match command {
        Command::Call(call) => match call.name {
            CommandName::Copy | CommandName::Show => call.second == "-",
            CommandName::Diff => call.third == "-",
            _ => false,
        },
        _ => false,
    }
}

/// Writes the error in the arguments of the program, and how to get help. Returns the exit status.
pub fn refuse<E: io::Write>(refusal: &UsageError<'_>, out: &mut E) -> Status
    ensures { result ≡ Failed }
{
    write_message(out, None, refusal);
    let _ = out.write_all(b"Run 'yuv help' for usage.\n");
    Status::Failed
}

/// Writes the error that ended a command, with the name of the file. If the reader of the output closed it, nothing is written,
/// as is usual for command-line programs.
fn give_up<H: Clock, I, O, E: io::Write>(
    system: &mut System<'_, H, I, O, E>,
    command: &Command<'_>,
    fault: Fault,
) -> Status
    ensures { (result ≡ Failed) ⊎ (result ≡ Closed) }
{
    if fault.is_closed_pipe() {
        return Status::Closed;
    }
    let name = match (fault.place(), &fault) {
        (Some(_), Fault::Report(_)) => Some(STANDARD_OUTPUT),
        (Some(place), _) => Some(name_of(command, place)),
        (None, _) => None,
    };
    write_message(system.progress.out(), name, &fault);
    drop(fault);
    Status::Failed
}

/// Runs a command.
fn do_command<H, I, O, E>(
    system: &mut System<'_, H, I, O, E>,
    command: &Command<'_>,
) -> Result<Status, Fault>
where
    H: Files + AllocGlobal + Clock,
    H::File: SystemFile,
    I: io::Read + Drop,
    O: io::Write,
    E: io::Write,
{
    match command {
        Command::Help(topic) => print_usage(&mut system.output, *topic),
        Command::Version => print(&mut system.output, VERSION),
        Command::Call(call) => match call.name {
            CommandName::Info => do_info(system, call),
            CommandName::Compare => do_compare(system, call),
            CommandName::Copy => do_copy(system, call),
            CommandName::Sum => do_sum(system, call),
            CommandName::Stats => do_stats(system, call),
            CommandName::Show => do_show(system, call),
            CommandName::Diff => do_diff(system, call),
            CommandName::Plot => do_plot(system, call),
        },
    }
}

/// Prints the help of a topic. The help of a command includes all of its options.
fn print_usage<O: io::Write>(output: &mut O, topic: Topic) -> Result<Status, Fault> {
    write_text(output, usage_text(topic))?;
    if let Topic::Command(command) = topic {
        for option in command.options() {
            write_text(output, option.help())?;
        }
    }
    Ok(Status::Same)
}

/// Writes a text to standard output.
fn print<O: io::Write>(output: &mut O, text: &str) -> Result<Status, Fault> {
    write_text(output, text)?;
    Ok(Status::Same)
}

/// Returns the name of a file of a command for messages. The name `-` is replaced by the name of the standard stream.
fn name_of<'a>(command: &Command<'a>, place: Place) -> &'a str {
    let name = file_at(command, place);
    match (name, place) {
        ("-", Place::Output) => STANDARD_OUTPUT,
        _ => shown_name(name),
    }
}

/// Returns the name of the file at a place, or `-` if the command has no file there.
fn file_at<'a>(command: &Command<'a>, place: Place) -> &'a str {
    let Command::Call(call) = *command else {
        return "-";
    };
    match (place, call.name) {
        (Place::First, _) => call.first,
        (Place::Second, CommandName::Compare | CommandName::Diff | CommandName::Plot) => {
            call.second
        }
        (Place::Output, CommandName::Copy | CommandName::Show) => call.second,
        (Place::Output, CommandName::Diff | CommandName::Plot) => call.third,
        _ => "-",
    }
}

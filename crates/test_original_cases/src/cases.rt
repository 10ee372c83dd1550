//! Cases: each is read, executed, and its results are printed.

use crate::answers::print_answers;
use crate::edits::{Line, edit_frame};
use crate::fault::{CaseFault, LineFault};
use crate::input::Input;
use crate::print::{print_build, print_frame};
use crate::printer::Printer;
use crate::spec::Spec;
use std::alloc::Global;
use v_frame::frame::Frame;
use v_frame::pixel::Pixel;
use v_frame::replay::{VisibleCall, replay};
use v_frame::sequence::Sequence;

/// Prints the results of all cases up to the end of the input.
pub fn answer_cases(input: &mut Input<'_>, out: &mut Printer) {
    for _case in 0..u64::MAX {
        if input.is_at_end() {
            break;
        }
        answer_case(input, out);
        if out.is_cut_off() {
            input.give_up(CaseFault::OutOfMemory);
        }
    }
}

/// The kinds of cases.
#[derive(Clone, Copy)]
enum Kind {
    /// One frame and calls.
    Replay,
    /// Two frames, and calls that are executed on each.
    Pair,
    /// Only builds.
    Builds,
}

/// The names of the kinds of cases.
const KINDS: [(&str, Kind); 3] = [
    ("replay", Kind::Replay),
    ("pair", Kind::Pair),
    ("build", Kind::Builds),
];

/// Executes the case that begins in the next line.
fn answer_case(input: &mut Input<'_>, out: &mut Printer) {
    input.next_line();
    input.keyword("case", LineFault::NotACase);
    let id = input.word();
    let kind = input.choice(&KINDS);
    input.end();
    let is_pair = match kind {
        Some(Kind::Replay) => false,
        Some(Kind::Pair) => true,
        Some(Kind::Builds) => return answer_builds(input, id, out),
        None => return input.keep(LineFault::UnknownKind),
    };
    input.next_line();
    input.keyword("frame", LineFault::NotAFrame);
    let first = Spec::read(input);
    match first.bytes {
        1 => answer_frames::<u8>(input, id, is_pair, &first, out),
        _ => answer_frames::<u16>(input, id, is_pair, &first, out),
    }
}

/// Builds the first frame of a case, whose pixels have this type, and executes the case.
fn answer_frames<T: Pixel>(
    input: &mut Input<'_>,
    id: &str,
    is_pair: bool,
    first: &Spec,
    out: &mut Printer,
) {
    let mut built = first.frame::<T>(input);
    if let Some(one) = &mut built {
        if is_pair {
            answer_pair(input, id, one, out);
        } else {
            answer_one(input, id, one, out);
        }
    }
    drop(built);
}

/// Executes a case of one frame.
fn answer_one<T: Pixel>(input: &mut Input<'_>, id: &str, frame: &mut Frame<T>, out: &mut Printer) {
    edit_frame(frame, input, Line::Calls);
    let calls = input.list();
    if begin_answer(input, id, out) {
        answer_calls(input.alloc, frame, &calls, out);
        out.text("end\n");
    }
}

/// Executes a case of two frames.
fn answer_pair<T: Pixel>(input: &mut Input<'_>, id: &str, one: &mut Frame<T>, out: &mut Printer) {
    edit_frame(one, input, Line::Frame);
    let second = Spec::read(input);
    if second.bytes != T::BYTES {
        input.keep(LineFault::OtherPixelType);
    }
    let mut built = second.frame(input);
    if let Some(other) = &mut built {
        answer_two(input, id, one, other, out);
    }
    drop(built);
}

/// Executes a case of two frames after both are built.
fn answer_two<T: Pixel>(
    input: &mut Input<'_>,
    id: &str,
    one: &mut Frame<T>,
    other: &mut Frame<T>,
    out: &mut Printer,
) {
    edit_frame(other, input, Line::Calls);
    let calls = input.list();
    if begin_answer(input, id, out) {
        print_equality(out, one, other);
        answer_calls(input.alloc, one, &calls, out);
        answer_calls(input.alloc, other, &calls, out);
        print_equality(out, one, other);
        out.text("end\n");
    }
}

/// Reads the line that ends a case, and prints the line that begins its results. Returns `false` if there was a fault.
fn begin_answer(input: &mut Input<'_>, id: &str, out: &mut Printer) -> bool {
    input.next_line();
    input.keyword("end", LineFault::NotTheEnd);
    input.end();
    if input.is_faulty() {
        return false;
    }
    out.text("case ");
    out.text(id);
    out.end_line();
    true
}

/// Prints whether two frames are equal.
fn print_equality<T: Pixel>(out: &mut Printer, one: &Frame<T>, other: &Frame<T>) {
    let equal = one == other;
    out.named("equal", &equal);
    out.end_line();
}

/// Executes all calls of a case on a frame, and prints their results and the frame afterwards.
fn answer_calls<T: Pixel>(
    alloc: Global,
    frame: &mut Frame<T>,
    calls: &Sequence<VisibleCall<T>>,
    out: &mut Printer,
) {
    match replay(alloc, frame, calls.as_slice()) {
        Ok(answers) => print_answers(out, answers.as_slice()),
        Err(_stopped) => out.cut_off(),
    }
    print_frame(out, frame);
}

/// Executes a case of builds.
fn answer_builds(input: &mut Input<'_>, id: &str, out: &mut Printer) {
    input.next_line();
    input.keyword("calls", LineFault::NotCalls);
    let specs: Sequence<Spec> = input.list();
    if begin_answer(input, id, out) {
        for spec in specs.iter() {
            match spec.bytes {
                1 => print_build::<u8>(input.alloc, out, spec),
                _ => print_build::<u16>(input.alloc, out, spec),
            }
        }
        out.text("end\n");
    }
}

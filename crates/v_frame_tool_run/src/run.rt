//! The program: it builds, fills and prints a small frame.
ghost use Rattle.std.specs.Prelude.{◌≡◌, ◌≢◌, ℕ, ◌<◌, ◌⊎◌, List, [], ◌∷◌, ◌++◌, length, IfOk, IfErr, OnOk, string_bytes, Some, Err};
ghost use Rattle.std.specs.Io.KnownBytes.{Appends};
ghost use Rattle.v_frame.specs.Prelude.{cut_rows, tables_of, one_byte, answers_to};
ghost use Rattle.v_frame_tool_run.specs.Printed.{sized_rows, text_of_table, line_of};
ghost use Rattle.v_frame_tool_run.specs.Run.{blank_tables, calls_on, StartsWithCopy, IsSizeAndRows, IsDue, LeavesWriter};

use crate::fault::ToolFault;
use std::alloc::{AllocError, Global};
use std::io;
use v_frame::chroma::ChromaSubsampling;
use v_frame::frame::{Frame, FrameBuilder, FrameError};
use v_frame::plane::CopyError;
use v_frame::replay::{Answer, VisibleCall, replay};
use v_frame_planar::Counted;

/// Writes the visible pixels of a luma plane of 4 by 2 pixels that is filled with the pixels of `source`.
///
/// # Errors
///
/// - [`ToolFault::Copy`] if the length of `source` is not 8 pixels. Nothing is written.
/// - [`ToolFault::Frame`] and [`ToolFault::OutOfMemory`] if memory cannot be allocated. Nothing is written.
/// - [`ToolFault::Output`] if a write failed, including interrupted writes. The first part of the text may have been written.
/// - [`ToolFault::WriteZero`] if a write took none of its bytes. The first part of the text may have been written.
pub fn run<W: io::Write>(
    alloc: Global,
    out: &mut Counted<W>,
    source: &[u8],
) -> Result<(), ToolFault>
    ensures length { OnOk result (length source.now ≡ 8) }
    ensures ok { OnOk result (Appends (W.contents out.old.inner) (W.contents out.new.inner)
        (text_of_table (cut_rows 4 2 source.now))) }
    ensures uncounted { OnOk result (out.new.failures ≡ out.old.failures) }
    ensures other_length { length source.now ≢ 8 → out.new ≡ out.old }
    ensures fault { IfErr result (IsDue source.now out.old.failures out.new.failures) }
    ensures left { IfErr result (LeavesWriter W.contents out.old out.new
        (text_of_table (cut_rows 4 2 source.now))) }
{
    let mut answers = answers_of_frame(alloc, source)?;
    if let Err(error) = take_copied(&mut answers) {
        return Err(ToolFault::Copy(error));
    }
    let text = text_of(alloc, answers.as_slice())?;
    out.write_all(text.as_bytes())?;
    Ok(())
}

/// Returns the results of calls that fill a small frame with the pixels of `source`, measure it and read it.
fn answers_of_frame(alloc: Global, source: &[u8]) -> Result<Vec<Answer<u8>>, ToolFault>
    ensures ok { IfOk result (λ answers.
        answers.items ≡ answers_to one_byte (calls_on source.now) blank_tables) }
    ensures fault { IfErr result (λ fault. (fault ≡ ToolFault.Frame FrameError.OutOfMemory)
        ⊎ (fault ≡ ToolFault.OutOfMemory)) }
{
    let mut frame = small_frame(alloc)?;
    let source = Vec::from_slice(alloc, source)?;
    let calls = [
        VisibleCall::CopyFromSlice {
            plane: 0,
            source: source.into(),
        },
        VisibleCall::Width { plane: 0 },
        VisibleCall::Height { plane: 0 },
        VisibleCall::Row { plane: 0, y: 0 },
        VisibleCall::Row { plane: 0, y: 1 },
    ];
    replay(alloc, &mut frame, &calls).map_err(|_| ToolFault::OutOfMemory)
}

/// Returns a frame with a luma plane of 4 by 2 zeros inside a border.
fn small_frame(alloc: Global) -> Result<Frame<u8>, ToolFault>
    ensures ok { IfOk result (λ frame. tables_of frame ≡ blank_tables) }
    ensures fault { IfErr result (λ fault. fault ≡ ToolFault.Frame FrameError.OutOfMemory) }
{
    let builder = FrameBuilder::new(4, 2, ChromaSubsampling::Monochrome, 8)
        .luma_padding_left(2)
        .luma_padding_right(1)
        .luma_padding_top(1)
        .luma_padding_bottom(0);
    match builder.build(alloc) {
        Ok(frame) => Ok(frame),
        Err(error) => Err(ToolFault::Frame(error)),
    }
}

/// Removes the first result from the list. It is that of a copy.
fn take_copied(answers: &mut Vec<Answer<u8>>) -> Result<(), CopyError>
    requires { StartsWithCopy answers.old.items }
    ensures { answers.old.items ≡ Answer.Copied result ∷ answers.new.items }
{
    match answers.remove(0) {
        Answer::Copied(copied) => copied,
        _ => unreachable!(),
    }
}

/// Returns the text of a width, a height and two rows.
fn text_of(alloc: Global, answers: &[Answer<u8>]) -> Result<String, AllocError>
    requires { IsSizeAndRows answers.now }
    ensures { (width height : ℕ) (first second : List ℕ)
        → answers.now ≡ Answer.Number width ∷ Answer.Number height
        ∷ Answer.RowShown (Some first) ∷ Answer.RowShown (Some second) ∷ []
        → IfOk result (λ text. string_bytes text ≡ sized_rows width height (first ∷ second ∷ [])) }
{
    let [
        Answer::Number(width),
        Answer::Number(height),
        Answer::RowShown(Some(first)),
        Answer::RowShown(Some(second)),
    ] = answers
    else {
        unreachable!()
    };
    let mut text = String::new(alloc);
    writeln!(text, "plane 0: {width} x {height}")?;
    push_row(&mut text, first.as_slice())?;
    push_row(&mut text, second.as_slice())?;
    Ok(text)
}

/// Appends the numbers of a row and a newline.
fn push_row(text: &mut String, row: &[u8]) -> Result<(), AllocError>
    ensures { OnOk result (string_bytes text.new ≡ string_bytes text.old ++ line_of row.now) }
{
    if let Some((first, rest)) = row.split_first() {
        write!(text, "{first}")?;
        for pixel in rest {
            write!(text, " {pixel}")?;
        }
    }
    text.push('\n')
}

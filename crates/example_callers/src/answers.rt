//! Calls as values, and the values in their results.
ghost use Rattle.std.specs.Prelude.{◌≡◌, [], ◌∷◌, None, Some, IfOk, IfErr, count_by, option_copied};
ghost use Rattle.v_frame.specs.Prelude.{tables_of};
ghost use Rattle.example_callers.specs.Answers.{row_in};

use crate::single_pixels::set_pixel;
use std::alloc::Global;
use v_frame::chroma::ChromaSubsampling;
use v_frame::frame::{Frame, FrameBuilder, FrameError};
use v_frame::pixel::Pixel;
use v_frame::replay::{Answer, VisibleCall, replay};
use v_frame::sequence::Sequence;

/// Returns the results of a list of calls on a new frame. The frame has 3 by 2 pixels and is filled, and one pixel is set and
/// read.
pub fn first_answers(alloc: Global) -> Result<Vec<Answer<u8>>, FrameError>
    ensures answers { IfOk result (λ answers. answers.items
        ≡ Answer.Number 3 ∷ Answer.RowShown (Some (4 ∷ 5 ∷ 9 ∷ [])) ∷ Answer.NoPlane ∷ []) }
    ensures fault { IfErr result (λ fault. fault ≡ FrameError.OutOfMemory) }
{
    let mut frame = frame_of_six_pixels(alloc)?;
    set_pixel(&mut frame.y_plane, 2, 1, 9);
    let read = frame.y_plane.pixel(2, 1);
    prove!(read == Some(9));
    let calls = [
        VisibleCall::Width { plane: 0 },
        VisibleCall::Row { plane: 0, y: 1 },
        VisibleCall::Height { plane: 1 },
    ];
    let answered = replay(alloc, &mut frame, &calls);
    drop(frame);
    match answered {
        Ok(answers) => Ok(answers),
        Err(_) => Err(FrameError::OutOfMemory),
    }
}

/// Returns a monochrome frame that shows the row 1, 2, 3 above the row 4, 5, 6.
fn frame_of_six_pixels(alloc: Global) -> Result<Frame<u8>, FrameError>
    ensures shown { IfOk result (λ frame. tables_of frame
        ≡ record { y = (1 ∷ 2 ∷ 3 ∷ []) ∷ (4 ∷ 5 ∷ 6 ∷ []) ∷ []; u = None; v = None }) }
    ensures size { IfOk result (λ frame. (frame.y_plane.geometry.width ≡ 3)
        × (frame.y_plane.geometry.height ≡ 2)) }
    ensures fault { IfErr result (λ fault. fault ≡ FrameError.OutOfMemory) }
{
    let mut frame = FrameBuilder::new(3, 2, ChromaSubsampling::Monochrome, 8)
        .luma_padding_left(16)
        .build::<u8>(alloc)?;
    let copied = frame.y_plane.copy_from_slice(&[1, 2, 3, 4, 5, 6]);
    prove!(copied.is_ok());
    Ok(frame)
}

/// Returns the row in a result, or `None` if the result has no row.
pub fn row_of<T>(answer: &Answer<T>) -> Option<&[T]>
    ensures { option_copied result ≡ row_in answer.now }
{
    match answer {
        Answer::RowShown(Some(row)) => Some(row.as_slice()),
        _ => None,
    }
}

/// Returns the number of pixels of `row` that are equal to `pixel`.
pub fn count_of_pixel<T: Pixel>(row: &Sequence<T>, pixel: T) -> usize
    ensures { result ≡ count_by (λ p. T.eq p pixel) row.now }
{
    row.iter().filter(|p| **p == pixel).count()
}

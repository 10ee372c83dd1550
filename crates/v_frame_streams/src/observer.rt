//! A callback that receives each pair of compared frames.
ghost use Rattle.std.specs.Prelude.{IfErr, OnOk};
ghost use Rattle.v_frame.specs.Prelude.{tables_of, Tables};
ghost use Rattle.v_frame_streams.specs.declared.error.StreamError.{StreamError as TheError};
ghost use Rattle.v_frame_formats.specs.declared.sums.PlaneSums.{PlaneSums as TheSums};

use crate::error::StreamError;
use v_frame::frame::Frame;
use v_frame::pixel::Pixel;
use v_frame_formats::PlaneSums;

/// Receives the pairs of frames that [`compare_streams`](crate::compare_streams) compares. `T` is the pixel type of the frames.
pub trait FrameObserver<T: Pixel> {
    // Relates the observer before and after it took two frames with these tables and these sums of squared errors. By default
    // it states nothing.
    ghost takes: { Self → Self → Tables T → Tables T → TheSums → Type 0 } = { λ _ _ _ _ _. Unit {0} };

    // The errors with which the observer may end a comparison. By default it may be any error.
    ghost stops: { Self → TheError → Type 0 } = { λ _ _. Unit {0} };

    /// Receives two frames that were compared, and the sums of their squared errors.
    ///
    /// # Errors
    ///
    /// Any error of the observer. The comparison then ends and returns this error.
    fn take(
        &mut self,
        first: &Frame<T>,
        second: &Frame<T>,
        errors: &PlaneSums,
    ) -> Result<(), StreamError>
        ensures taken { OnOk result (takes self.old self.new (tables_of first.now) (tables_of second.now) errors.now) }
        ensures stopped { IfErr result (stops self.new) };
}

/// An observer that ignores all frames.
#[derive(Clone, Copy)]
pub struct NoObserver;

impl<T: Pixel> FrameObserver<T> for NoObserver {
    ghost stops = { λ _ _. ⊥ };

    fn take(
        &mut self,
        _first: &Frame<T>,
        _second: &Frame<T>,
        _errors: &PlaneSums,
    ) -> Result<(), StreamError> {
        Ok(())
    }
}

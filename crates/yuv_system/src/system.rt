//! The parts of the system that a command uses.

use crate::progress::ProgressLine;

/// The parts of the system that a command uses.
#[derive(Drop)]
pub struct System<'a, H, I, O, E> {
    /// Files, memory and the clock.
    pub rt: &'a H,
    /// Standard input, until a stream is read from it.
    pub input: Option<I>,
    /// Standard output.
    pub output: O,
    /// The line on standard error that shows the frame count.
    pub progress: ProgressLine<'a, H, E>,
}

//! A callback for progress reports.
ghost use Rattle.std.specs.Prelude.{ℕ, ◌+◌, ◌<◌};

/// Receives the progress of a call while it works.
pub trait Progress {
    // Relates the receiver before and after a number was reported. By default it states nothing.
    ghost shows: { Self → Self → ℕ → Type 0 } = { λ _ _ _. Unit {0} };

    /// Receives the number of frames done so far.
    fn show(&mut self, frames: u64)
        ensures { shows self.old self.new frames };
}

/// Reports that one more frame is done, after the first `before`.
pub(crate) fn show_one_more<P: Progress>(progress: &mut P, before: u64)
    requires { before < u64.MAX }
    ensures { P.shows progress.old progress.new (before + 1) }
{
    progress.show(before + 1);
}

/// Ignores all progress reports.
#[derive(Clone, Copy)]
pub struct Silent;

impl Progress for Silent {
    fn show(&mut self, _frames: u64) {}
}

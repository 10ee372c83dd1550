//! Exit statuses.
ghost use Rattle.std.specs.Prelude.{◌≡◌};
ghost use Rattle.yuv_system.specs.Status.{status_code};

/// The exit status of the program.
#[derive(Clone, Copy)]
pub enum Status {
    /// The command succeeded. If it compares, it found no difference.
    Same,
    /// The command found a difference.
    Different,
    /// The reader of the output closed it. Shells report this status for a program that the signal PIPE ends.
    Failed,
    /// The reader of the output closed it. The status is that of a program that the signal PIPE ends, as shells report it.
    Closed,
}

impl Status {
    /// Returns the exit status of a process.
    pub fn code(self) -> u8
        ensures { result ≡ status_code self }
    {
        match self {
            Status::Same => 0,
            Status::Different => 1,
            Status::Failed => 2,
            Status::Closed => 141,
        }
    }
}

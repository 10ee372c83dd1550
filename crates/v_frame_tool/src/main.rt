//! Prints the rows of a small frame.
#![tactic(auto)]

#[cfg(test)]
mod tests;

// The parts of the program and its tests are in libraries, which other crates link without the program. These modules give them
// local names.

mod counted {
    pub use v_frame_planar::Counted;
}

mod fault {
    pub use v_frame_tool_run::fault::ToolFault;
}

mod planar {
    pub use v_frame_planar::{PlanarError, read_frame, write_frame};
}

mod run {
    pub use v_frame_tool_run::run::run;
}

use counted::Counted;
use std::process::ExitCode;

fn main(rt: HostRuntime) -> ExitCode {
    let mut out = Counted::new(rt.stdout());
    match run::run(rt.alloc(), &mut out, &[1, 2, 3, 4, 5, 6, 7, 8]) {
        Ok(()) => ExitCode::SUCCESS,
        Err(fault) => {
            let _ = eprintln!(rt; "{fault}");
            ExitCode::FAILURE
        }
    }
}

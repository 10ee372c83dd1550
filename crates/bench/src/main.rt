//! Measures the running times of the library: `bench WIDTH HEIGHT PADDING SEED REPETITIONS`. Without arguments it measures
//! nothing.
//!
//! It prints one line for each case and each type of pixels: the name of the case, the number of pixels that it processes, a
//! checksum of all data that it read and wrote, and the nanoseconds of each repetition. `tools/bench` runs it beside the same
//! loops over the original crate. The sizes and the seed are arguments, and each run begins with another pixel changed, so that
//! the compiler can neither precompute nor drop the work.
#![tactic(auto)]

mod blocks;
mod cases;
mod desk;
mod error;
mod pictures;
mod pixel_loops;
mod plan;
mod reads;
mod whole;
mod writes;

use cases::{CASES, Case, work};
use desk::Desk;
use error::BenchError;
use plan::{Plan, UNTIMED};
use std::env;
use std::process::ExitCode;
use std::time::{Duration, Instant};
use v_frame::pixel::Pixel;

fn main(rt: HostRuntime) -> ExitCode {
    match run(&rt) {
        Ok(()) => ExitCode::SUCCESS,
        Err(error) => {
            let _ = eprintln!(rt; "{error}");
            ExitCode::FAILURE
        }
    }
}

/// Measures all cases if there are arguments.
fn run(rt: &HostRuntime) -> Result<(), BenchError> {
    let mut words = env::args(rt)?.skip(1);
    let Some(width) = words.next() else {
        return Ok(());
    };
    let plan = Plan {
        width: number(Some(width))?,
        height: number(words.next())?,
        padding: number(words.next())?,
        seed: number(words.next())?,
        repetitions: number(words.next())?,
    };
    measure_type::<u8>(rt, plan, "u8", 8)?;
    measure_type::<u16>(rt, plan, "u16", 16)
}

/// Parses an argument as a number.
fn number(word: Option<String>) -> Result<u16, BenchError> {
    let word = word.ok_or(BenchError::Usage)?;
    word.parse::<u16>().map_err(|_| BenchError::Usage)
}

/// Measures all cases with pixels of this type.
fn measure_type<T: Pixel>(
    rt: &HostRuntime,
    plan: Plan,
    name: &str,
    depth: u8,
) -> Result<(), BenchError> {
    let mut desk = Desk::<T>::new(rt.alloc(), plan, depth)?;
    for (case_name, case) in CASES {
        desk.reset()?;
        print!(rt; "{case_name}_{name} {}", desk.pixels_of(case))?;
        measure(rt, plan, &mut desk, case)?;
    }
    Ok(())
}

/// Measures a case, and prints the checksum and the times of all runs after the warm-up.
fn measure<T: Pixel>(
    rt: &HostRuntime,
    plan: Plan,
    desk: &mut Desk<T>,
    case: Case,
) -> Result<(), BenchError> {
    let mut sum = 0u64;
    let mut times = Vec::new(rt.alloc());
    for run in 0..UNTIMED.saturating_add(usize::from(plan.repetitions)) {
        desk.change(run);
        let start = Instant::now(rt)?;
        let seen = work(case, desk)?;
        let time = start.elapsed(rt)?;
        sum = sum.wrapping_add(seen).wrapping_add(desk.sample(run));
        if run >= UNTIMED {
            times
                .push(nanoseconds(time))
                .map_err(|_| BenchError::OutOfMemory)?;
        }
    }
    print!(rt; " {}", sum.wrapping_add(desk.checksum()))?;
    for time in times.iter() {
        print!(rt; " {time}")?;
    }
    println!(rt; "")?;
    Ok(())
}

/// Returns a time in nanoseconds.
fn nanoseconds(time: Duration) -> u64 {
    u64::try_from(time.as_nanos()).unwrap_or(u64::MAX)
}

//! Runs by workers on seats.
ghost use Rattle.std.specs.Prelude.{◌≡◌, ◌≤◌};
ghost use Rattle.tau_value.specs.declared.limits.TheConstants.{STEP_LIMIT};
ghost use Rattle.tau_tree.specs.Sound.{Sound};
ghost use Rattle.tau_script.specs.Openings.{program_opening};

use std::alloc::{AllocError, Global};
use std::sync::Wait;
use std::thread::Threads;
use tau_book::Ran;
use tau_check::{Legality, check};
use tau_tree::Program;
use tau_workers::{OpenGate, Settings, run_workers};

/// Runs the program on seats, and adds that the run ended, and whether it is told as complete; or, where the trace is checked, what it is.
pub fn add_run<R: Threads + Wait + Sync>(
    rt: &R,
    alloc: Global,
    text: &mut String,
    program: &Program,
    settings: Settings,
    is_checked: bool,
) -> Result<(), AllocError>
    requires sound { Sound program.now }
    requires some { 1 ≤ settings.workers }
    requires jobs { 1 ≤ settings.jobs }
    requires few { settings.jobs ≤ 16 }
    requires limit { settings.limit ≤ STEP_LIMIT }
{
    let ran = run_workers(rt, alloc, program, settings, &OpenGate)?;
    let workers = settings.workers;
    let added = if is_checked {
        add_checked(alloc, text, program, workers, &ran)
    } else {
        let complete = ran.is_complete;
        writeln!(text, "{workers} workers: ended, complete: {complete}")
    };
    drop(ran);
    added
}

/// Adds what the trace of a run that has ended is.
fn add_checked(
    alloc: Global,
    text: &mut String,
    program: &Program,
    workers: u32,
    ran: &Ran,
) -> Result<(), AllocError>
    requires sound { Sound program.now }
    requires opening { ran.now.trace.run.opening ≡ program_opening program.now }
{
    match check(alloc, program, &ran.trace)? {
        Legality::Legal { complete } => {
            let agrees = complete == ran.is_complete;
            writeln!(
                text,
                "{workers} workers: ended, legal, complete: {complete}, told so: {agrees}"
            )
        }
        Legality::Bad { place } => writeln!(text, "{workers} workers: ended, bad at {place}"),
    }
}

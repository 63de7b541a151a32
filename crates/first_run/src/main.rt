//! The command `run` over the crates that it needs and no others, so that an unproved build of it is there sooner than one of all
//! commands (docs/gate.md, "How long a newcomer waits"). Its words are four numbers: workers, jobs, seed and steps, which `bin/tau` has
//! from the options of `run`. Text, statuses and lines are those of `tau run`.
#![tactic(auto)]

ghost use Rattle.std.specs.Prelude.{◌≤◌};
ghost use Rattle.tau_book.specs.declared.limits.TheConstants.{JOB_LIMIT};
ghost use Rattle.tau_value.specs.declared.limits.TheConstants.{STEP_LIMIT};
ghost use Rattle.tau_tree.specs.Sound.{Sound};

mod ended;
mod numbers;

use ended::Ended;
use numbers::{Numbers, read_numbers};
use std::alloc::Global;
use std::process::ExitCode;
use std::rt::Env;
use std::sync::Wait;
use std::thread::Threads;
use tau_book::{OpenGate, run_serially};
use tau_io::{Sink, Source, StdSink, StdSource, read_all, write_all_of};
use tau_text::{read_program, run_text};
use tau_tree::Program;
use tau_workers::{Settings, run_workers};

/// The most bytes of an input, 16 MiB (docs/limits.md).
const INPUT_LIMIT: usize = 16_777_216;

fn main(rt: HostRuntime) -> ExitCode {
    let mut input = StdSource::new(rt.stdin());
    let mut output = StdSink::new(rt.stdout());
    let ended = match run(&rt, rt.alloc(), &mut input, &mut output) {
        Ok(is_complete) if is_complete => Ended::Done,
        Ok(_) => Ended::Stopped,
        Err(ended) => ended,
    };
    if ended != Ended::Done {
        // Nothing is left to do where standard error takes no line.
        let _ = eprintln!(rt; "{ended}");
    }
    ExitCode::from(ended.number())
}

/// Runs the program that the input spells as the words of the process say, writes its run text, and tells whether the run is complete.
fn run<R: Env + Alloc + Threads + Wait + Sync, I: Source, O: Sink>(
    rt: &R,
    alloc: Global,
    input: &mut I,
    output: &mut O,
) -> Result<bool, Ended> {
    let numbers = read_numbers(rt)?;
    let bytes = read_all(alloc, input, INPUT_LIMIT)?;
    let read = read_program(alloc, &bytes);
    drop(bytes);
    let program = read?;
    let ended = run_program(rt, alloc, &program, numbers, output);
    drop(program);
    ended
}

/// Runs a program, writes its run text, and tells whether the run is complete.
fn run_program<R: Threads + Wait + Sync, O: Sink>(
    rt: &R,
    alloc: Global,
    program: &Program,
    numbers: Numbers,
    output: &mut O,
) -> Result<bool, Ended>
    requires sound { Sound program.now }
    requires workers { 1 ≤ numbers.workers }
    requires jobs { 1 ≤ numbers.jobs }
    requires few { numbers.jobs ≤ JOB_LIMIT }
    requires steps { numbers.steps ≤ STEP_LIMIT }
{
    let made = if numbers.workers > 1 {
        let settings = Settings {
            workers: numbers.workers,
            jobs: numbers.jobs,
            seed: numbers.seed,
            limit: numbers.steps,
        };
        run_workers(rt, alloc, program, settings, &OpenGate)?
    } else {
        run_serially(alloc, program, numbers.jobs, numbers.seed, numbers.steps)?
    };
    let text = run_text(alloc, program, &made.trace);
    let is_complete = made.is_complete;
    drop(made);
    write_all_of(output, &text?)?;
    Ok(is_complete)
}

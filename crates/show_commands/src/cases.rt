//! Two workers that are held by gates, so that one input gives two traces.
ghost use Rattle.std.specs.Prelude.{◌≡◌};
ghost use Rattle.tau_tree.specs.Sound.{Sound};
ghost use Rattle.tau_script.specs.Openings.{program_opening};

use crate::calls::with_gate;
use crate::facts::add_facts;
use crate::holding::{Case, HoldingGate};
use std::alloc::{AllocError, Global};
use std::sync::Wait;
use std::thread::Threads;
use tau_book::Ran;
use tau_cli::{Status, Words};
use tau_io::{SteadySink, SteadySource};
use tau_text::{read_program, read_run_text};
use tau_tree::Program;
use tau_workers::{Settings, run_workers};

/// Two workers, each with one job.
const SETTINGS: Settings = Settings {
    workers: 2,
    jobs: 1,
    seed: 0,
    limit: 1_000,
};

/// Adds what holds of the traces of both cases, by a call of `run_workers` on the program of an input, and by a command on the input.
pub(crate) fn add_cases<R: Threads + Wait + Sync>(
    rt: &R,
    alloc: Global,
    text: &mut Vec<u8>,
    words: &Words,
    input: &[u8],
) -> Result<(), AllocError> {
    let mut told = String::new(alloc);
    add_runs(rt, alloc, &mut told, input)?;
    add_command(rt, alloc, &mut told, words, input, Case::A)?;
    add_command(rt, alloc, &mut told, words, input, Case::B)?;
    text.extend_from_slice(told.as_bytes())
}

/// Adds what holds of the traces of both cases, by `run_workers`.
fn add_runs<R: Threads + Wait + Sync>(
    rt: &R,
    alloc: Global,
    text: &mut String,
    input: &[u8],
) -> Result<(), AllocError> {
    match read_program(alloc, input) {
        Ok(program) => {
            let added = add_both(rt, alloc, text, &program);
            drop(program);
            added
        }
        Err(error) => writeln!(text, "{error}"),
    }
}

/// Adds what holds of the traces that the workers make of a program in both cases.
fn add_both<R: Threads + Wait + Sync>(
    rt: &R,
    alloc: Global,
    text: &mut String,
    program: &Program,
) -> Result<(), AllocError>
    requires { Sound program.now }
{
    add_case(rt, alloc, text, program, Case::A)?;
    add_case(rt, alloc, text, program, Case::B)
}

/// Runs the program by two workers with the gate of a case, and adds what holds of the trace.
fn add_case<R: Threads + Wait + Sync>(
    rt: &R,
    alloc: Global,
    text: &mut String,
    program: &Program,
    case: Case,
) -> Result<(), AllocError>
    requires { Sound program.now }
{
    let gate = HoldingGate::new(case);
    let ran = run_workers(rt, alloc, program, SETTINGS, &gate)?;
    let added = add_ran(alloc, text, program, case, &gate, &ran);
    drop(ran);
    added
}

/// Adds what holds of a gate and of the run behind it.
fn add_ran(
    alloc: Global,
    text: &mut String,
    program: &Program,
    case: Case,
    gate: &HoldingGate,
    ran: &Ran,
) -> Result<(), AllocError>
    requires sound { Sound program.now }
    requires opening { ran.now.trace.run.opening ≡ program_opening program.now }
{
    writeln!(text, "case {}", case.name())?;
    add_holds(text, gate)?;
    writeln!(text, "the run is told as complete: {}", ran.is_complete)?;
    add_facts(alloc, text, case, program, &ran.trace)
}

/// Adds whether the holds of a gate have ended as they should.
fn add_holds(text: &mut String, gate: &HoldingGate) -> Result<(), AllocError> {
    let held = !gate.ran_out();
    writeln!(text, "each hold ended before its limit of looks: {held}")
}

/// Lets a command run the program of an input with the gate of a case, and adds what holds of the run text that it writes.
fn add_command<R: Threads + Wait + Sync>(
    rt: &R,
    alloc: Global,
    text: &mut String,
    words: &Words,
    input: &[u8],
    case: Case,
) -> Result<(), AllocError> {
    let gate = HoldingGate::new(case);
    let mut output = SteadySink::new(alloc);
    let mut source = SteadySource::new(Vec::from_slice(alloc, input)?);
    let status = with_gate(rt, alloc, words, &mut source, &mut output, &gate);
    add_ended(alloc, text, case, &gate, status, output.bytes())
}

/// Adds what holds of a gate, and of how the command ended behind it and what it wrote.
fn add_ended(
    alloc: Global,
    text: &mut String,
    case: Case,
    gate: &HoldingGate,
    status: Status,
    written: &[u8],
) -> Result<(), AllocError> {
    writeln!(text, "case {} by the command", case.name())?;
    add_holds(text, gate)?;
    writeln!(text, "the status is Done: {}", status == Status::Done)?;
    match read_run_text(alloc, written) {
        Ok(read) => {
            let added = add_facts(alloc, text, case, &read.program, &read.trace);
            drop(read);
            added
        }
        Err(_) => text.push_str("what was written is no run text\n"),
    }
}

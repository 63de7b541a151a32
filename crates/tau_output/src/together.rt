//! What commands write where `run` and `storm` start several workers.
ghost use Rattle.std.specs.Prelude.{◌≡◌, ◌⊎◌, ℕ, List, ◌<◌, ◌≤◌, length, IfOk, IfErr, Err};
ghost use Rattle.tau_value.specs.declared.limits.TheConstants.{STEP_LIMIT};
ghost use Rattle.tau_text.specs.Errors.{TellsInputFault};
ghost use Rattle.tau_text.specs.Faults.{IsProgramFault};
ghost use Rattle.tau_text.specs.Meaning.{IsProgram};
ghost use Rattle.tau_tree.specs.Sound.{Sound};
ghost use Rattle.tau_book.specs.declared.limits.TheConstants.{JOB_LIMIT};
ghost use Rattle.tau_output.specs.Faults.{input_limit, IsInputFault};
ghost use Rattle.tau_output.specs.Refusals.{TellsFault, TellsLacking};
ghost use Rattle.tau_output.specs.declared.refusals.Wanted.{Wanted};
ghost use Rattle.tau_output.specs.Asking.{AsksInVain};
ghost use Rattle.tau_output.specs.Runs.{RunsAs};
ghost use Rattle.tau_output.specs.Writing.{Writes, HasLimit};

use crate::outputs::{or_no_memory, refused_by};
use crate::running::write_run;
use crate::storming_by_workers::storm_by_workers;
use crate::{Output, Refusal, output_of};
use std::alloc::{AllocError, Global};
use std::sync::Wait;
use std::thread::Threads;
use tau_command::TextCommand;
use tau_storm::Watch;
use tau_text::{InputError, read_program};
use tau_tree::Program;
use tau_workers::{Gate, Settings, run_workers};

/// What a command writes for the bytes of its input, as [`output_of`] says, but `run` and `storm` with two workers or more start a thread
/// for each of them (docs/rules.md, "Workers", "Storm"). The gate stands before and after each evaluation of a `run`,
/// and is told of a `storm` while its runs are made.
pub fn output_by_workers<R: Threads + Wait + Sync, G: Gate + Watch + Sync>(
    rt: &R,
    alloc: Global,
    command: TextCommand,
    bytes: &[u8],
    gate: &G,
) -> Result<Output, Refusal>
    requires bytes { length bytes.now ≤ input_limit }
    requires limit { HasLimit command }
    ensures output { IfOk result (λ o. Writes command bytes.now o.end o.text.items) }

    ensures fault { IfErr result (TellsFault (IsInputFault command bytes.now)) }
    ensures faulty { (fault at : ℕ) → IsInputFault command bytes.now fault at
        → (result ≡ Err (Refusal.Fault fault at)) ⊎ (result ≡ Err Refusal.NoMemory) }

    ensures lacking { IfErr result (TellsLacking (AsksInVain command bytes.now)) }
    ensures in_vain { (wanted : Wanted) → AsksInVain command bytes.now wanted
        → (result ≡ Err (Refusal.Lacking wanted)) ⊎ (result ≡ Err Refusal.NoMemory) }
{
    match command {
        TextCommand::Run {
            workers,
            jobs,
            seed,
            steps,
        } if workers > 1 => {
            let settings = Settings {
                workers,
                jobs,
                seed,
                limit: steps,
            };
            refused_by(write_workers_run(rt, alloc, bytes, settings, gate))
        }
        TextCommand::Storm {
            workers,
            numbers,
            question,
        } if workers > 0 => {
            gate.begin(numbers.seeds);
            let output = storm_by_workers(rt, workers, gate, alloc, bytes, &numbers, &question);
            gate.end();
            output
        }
        _ => output_of(alloc, command, bytes),
    }
}

/// The run text of the program that the bytes spell and of a run that several workers made.
fn write_workers_run<R: Threads + Wait + Sync, G: Gate + Sync>(
    rt: &R,
    alloc: Global,
    bytes: &[u8],
    settings: Settings,
    gate: &G,
) -> Result<Output, InputError>
    requires some { 1 ≤ settings.workers }
    requires one { 1 ≤ settings.jobs }
    requires few { settings.jobs ≤ JOB_LIMIT }
    requires limit { settings.limit ≤ STEP_LIMIT }
    ensures output { IfOk result (λ o. RunsAs settings.limit bytes.now o.end o.text.items) }
    ensures fault { IfErr result (TellsInputFault (IsProgramFault bytes.now)) }
{
    let program = read_program(alloc, bytes)?;
    or_no_memory(write_together(rt, alloc, &program, settings, gate))
}

/// The run text of a program and of a run that several workers made. The error is want of memory.
fn write_together<R: Threads + Wait + Sync, G: Gate + Sync>(
    rt: &R,
    alloc: Global,
    program: &Program,
    settings: Settings,
    gate: &G,
) -> Result<Output, AllocError>
    requires sound { Sound program.now }
    requires some { 1 ≤ settings.workers }
    requires one { 1 ≤ settings.jobs }
    requires few { settings.jobs ≤ JOB_LIMIT }
    requires limit { settings.limit ≤ STEP_LIMIT }
    ensures { IfOk result (λ o. (bytes : List ℕ) → IsProgram bytes program.now → RunsAs settings.limit bytes o.end o.text.items) }
{
    let ran = run_workers(rt, alloc, program, settings, gate)?;
    write_run(alloc, program, &ran.trace, ran.is_complete)
}

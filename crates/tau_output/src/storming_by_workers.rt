//! The command `storm` by several workers.
ghost use Rattle.std.specs.Prelude.{◌≡◌, ◌≤◌, ◌<◌, ℕ, List, None, Some, Contains, length, IfOk, IfErr, IfSome};
ghost use Rattle.tau_command.specs.declared.commands.TextCommand.TheVariants.{Storm};
ghost use Rattle.tau_tree.specs.declared.programs.Program.{Program};
ghost use Rattle.tau_tree.specs.Sound.{Sound, behaviour_names};
ghost use Rattle.tau_text.specs.Faults.{IsProgramFault};
ghost use Rattle.tau_text.specs.Meaning.{IsProgram};
ghost use Rattle.tau_faults.specs.Visits.{IsSetting};
ghost use Rattle.tau_output.specs.Faults.{input_limit};
ghost use Rattle.tau_output.specs.Refusals.{TellsFault, TellsLacking};
ghost use Rattle.tau_output.specs.Asking.{AsksInVain};
ghost use Rattle.tau_output.specs.Storming.{setting_of as setting_by, StormsAs, TellsOutcomes, ShowsOutcome, TriesClaim, LacksOutcome};

use crate::storming::{behaviour_named, setting_of, show_outcome, tell_outcomes, tell_trial};
use crate::{Output, Refusal, Wanted};
use std::alloc::{AllocError, Global};
use std::thread::Threads;
use tau_command::{Line, Question, StormNumbers};
use tau_storm::{Watch, storm_by_threads, try_claim_by_threads};
use tau_text::read_program;
use tau_tree::Program;

/// What `storm` writes for the program that the bytes spell, as [`storm_program`](crate::storming::storm_program) says. So many workers make
/// the runs, each on a thread of its own where there is one, and the watch is told of them.
pub(crate) fn storm_by_workers<R: Threads + Sync, W: Watch + Sync>(
    rt: &R,
    workers: u32,
    watch: &W,
    alloc: Global,
    bytes: &[u8],
    numbers: &StormNumbers,
    question: &Question,
) -> Result<Output, Refusal>
    requires some { 1 ≤ workers }
    requires few { length bytes.now ≤ input_limit }
    requires setting { IsSetting (setting_by numbers.now) }
    ensures output { IfOk result (λ o. StormsAs numbers.now question.now bytes.now o.end o.text.items) }
    ensures fault { IfErr result (TellsFault (IsProgramFault bytes.now)) }
    ensures lacking { (count : ℕ) → IfErr result (TellsLacking (AsksInVain (Storm count numbers.now question.now) bytes.now)) }
{
    let mut program = read_program(alloc, bytes)?;
    match question {
        Question::Outcomes => Ok(outcomes_by_workers(
            rt,
            workers,
            watch,
            alloc,
            &mut program,
            numbers,
        )?),
        Question::Claim { name } => {
            match claim_by_workers(rt, workers, watch, alloc, &mut program, numbers, name)? {
                Some(output) => Ok(output),
                None => Err(Refusal::Lacking {
                    wanted: Wanted::Behaviour,
                }),
            }
        }
        Question::Show { outcome } => {
            match shown_by_workers(rt, workers, watch, alloc, &mut program, numbers, *outcome)? {
                Some(output) => Ok(output),
                None => Err(Refusal::Lacking {
                    wanted: Wanted::Outcome,
                }),
            }
        }
    }
}

/// The outcomes of the storm of a program. The error is want of memory.
fn outcomes_by_workers<R: Threads + Sync, W: Watch + Sync>(
    rt: &R,
    workers: u32,
    watch: &W,
    alloc: Global,
    program: &mut Program,
    numbers: &StormNumbers,
) -> Result<Output, AllocError>
    requires some { 1 ≤ workers }
    requires sound { Sound program.old }
    requires setting { IsSetting (setting_by numbers.now) }
    ensures { IfOk result (λ o. (bytes : List ℕ) → IsProgram bytes program.old → TellsOutcomes numbers.now bytes o.end o.text.items) }
{
    let setting = setting_of(numbers);
    let told = storm_by_threads(
        rt,
        alloc,
        program,
        &setting,
        numbers.seed,
        numbers.seeds,
        workers,
        watch,
    )?;
    tell_outcomes(alloc, numbers, &told)
}

/// The run text of the simplest run with an outcome; `None` where there is no outcome of this number. The error is want of memory.
fn shown_by_workers<R: Threads + Sync, W: Watch + Sync>(
    rt: &R,
    workers: u32,
    watch: &W,
    alloc: Global,
    program: &mut Program,
    numbers: &StormNumbers,
    outcome: u32,
) -> Result<Option<Output>, AllocError>
    requires some { 1 ≤ workers }
    requires sound { Sound program.old }
    requires setting { IsSetting (setting_by numbers.now) }
    ensures shown { IfOk result (λ r. IfSome r (λ o. (bytes : List ℕ) → IsProgram bytes program.old → ShowsOutcome numbers.now outcome bytes o.end o.text.items)) }
    ensures lacks { IfOk result (λ r. r ≡ None → (bytes : List ℕ) → IsProgram bytes program.old → LacksOutcome numbers.now outcome bytes) }
{
    let setting = setting_of(numbers);
    let told = storm_by_threads(
        rt,
        alloc,
        program,
        &setting,
        numbers.seed,
        numbers.seeds,
        workers,
        watch,
    )?;
    show_outcome(alloc, program, numbers, &told, outcome)
}

/// Whether a behaviour holds as a claim at each end of the storm of a program; `None` where the program has none of this name. The error
/// is want of memory.
fn claim_by_workers<R: Threads + Sync, W: Watch + Sync>(
    rt: &R,
    workers: u32,
    watch: &W,
    alloc: Global,
    program: &mut Program,
    numbers: &StormNumbers,
    name: &Line,
) -> Result<Option<Output>, AllocError>
    requires some { 1 ≤ workers }
    requires sound { Sound program.old }
    requires setting { IsSetting (setting_by numbers.now) }
    ensures tried { IfOk result (λ r. IfSome r (λ o. (bytes : List ℕ) → IsProgram bytes program.old → TriesClaim numbers.now name.now bytes o.end o.text.items)) }
    ensures lacks { IfOk result (λ r. r ≡ None → ¬ Contains (behaviour_names program.old) name.now) }
{
    let Some(behaviour) = behaviour_named(program, name) else {
        return Ok(None);
    };
    let setting = setting_of(numbers);
    let tried = try_claim_by_threads(
        rt,
        alloc,
        program,
        &setting,
        numbers.seed,
        numbers.seeds,
        workers,
        behaviour,
        watch,
    )?;
    Ok(Some(tell_trial(alloc, program, numbers, &tried)?))
}

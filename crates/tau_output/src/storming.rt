//! The command `storm`.
ghost use Rattle.std.specs.Prelude.{◌≡◌, ◌≤◌, ◌<◌, ℕ, List, None, Some, Contains, length, slice_get, IfOk, IfErr, IfSome, IsTrue, ◌↔◌};
ghost use Rattle.tau_command.specs.declared.commands.TextCommand.TheVariants.{Storm};
ghost use Rattle.tau_value.specs.declared.limits.TheConstants.{BEHAVIOUR_LIMIT};
ghost use Rattle.tau_tree.specs.declared.programs.Program.{Program};
ghost use Rattle.tau_tree.specs.Sound.{Sound, behaviour_names};
ghost use Rattle.tau_text.specs.Faults.{IsProgramFault};
ghost use Rattle.tau_text.specs.Meaning.{IsProgram};
ghost use Rattle.tau_faults.specs.Visits.{IsSetting};
ghost use Rattle.tau_output.specs.Faults.{input_limit};
ghost use Rattle.tau_output.specs.Refusals.{TellsFault, TellsLacking};
ghost use Rattle.tau_output.specs.Asking.{AsksInVain};
ghost use Rattle.tau_output.specs.Storming.{setting_of as setting_by, StormsAs, TellsOutcomes, ShowsOutcome, TriesClaim, LacksOutcome};
ghost use Rattle.tau_output.specs.Inner.Storms.{IsSerialText, IsTold, IsTrialOf};

use crate::running::write_run;
use crate::{End, Output, Refusal, Wanted};
use std::alloc::{AllocError, Global};
use tau_book::run_serially;
use tau_command::{Line, Question, StormNumbers};
use tau_faults::{FaultCounts, Setting};
use tau_storm::{Told, Tried, storm, storm_text, totals_text, try_claim};
use tau_text::read_program;
use tau_tree::{Behaviour, Program, Script};
use tau_workers::OpenGate;

/// What `storm` writes for the program that the bytes spell: its outcomes, whether a claim holds at each end, or the simplest run with an
/// outcome (docs/formats.md, "Storm"). The runs are made on the caller's thread.
pub(crate) fn storm_program(
    alloc: Global,
    bytes: &[u8],
    numbers: &StormNumbers,
    question: &Question,
) -> Result<Output, Refusal>
    requires few { length bytes.now ≤ input_limit }
    requires setting { IsSetting (setting_by numbers.now) }
    ensures output { IfOk result (λ o. StormsAs numbers.now question.now bytes.now o.end o.text.items) }
    ensures fault { IfErr result (TellsFault (IsProgramFault bytes.now)) }
    ensures lacking { (count : ℕ) → IfErr result (TellsLacking (AsksInVain (Storm count numbers.now question.now) bytes.now)) }
{
    let mut program = read_program(alloc, bytes)?;
    match question {
        Question::Outcomes => Ok(outcomes_output(alloc, &mut program, numbers)?),
        Question::Claim { name } => {
            match claim_output(alloc, &mut program, numbers, name)? {
                Some(output) => Ok(output),
                None => Err(Refusal::Lacking {
                    wanted: Wanted::Behaviour,
                }),
            }
        }
        Question::Show { outcome } => {
            match shown_output(alloc, &mut program, numbers, *outcome)? {
                Some(output) => Ok(output),
                None => Err(Refusal::Lacking {
                    wanted: Wanted::Outcome,
                }),
            }
        }
    }
}

/// How the runs are made, and which faults come.
pub(crate) fn setting_of(numbers: &StormNumbers) -> Setting
    ensures { result ≡ setting_by numbers.now }
{
    Setting {
        jobs: numbers.jobs,
        steps: numbers.steps,
        every: numbers.every,
        faults: FaultCounts {
            fails: numbers.fails,
            losses: numbers.losses,
            repeats: numbers.repeats,
        },
    }
}

/// The outcomes of the storm of a program. The error is want of memory.
fn outcomes_output(
    alloc: Global,
    program: &mut Program,
    numbers: &StormNumbers,
) -> Result<Output, AllocError>
    requires sound { Sound program.old }
    requires setting { IsSetting (setting_by numbers.now) }
    ensures { IfOk result (λ o. (bytes : List ℕ) → IsProgram bytes program.old → TellsOutcomes numbers.now bytes o.end o.text.items) }
{
    let setting = setting_of(numbers);
    let told = storm(
        alloc,
        program,
        &setting,
        numbers.seed,
        numbers.seeds,
        &OpenGate,
    )?;
    tell_outcomes(alloc, numbers, &told)
}

/// The run text of the simplest run with an outcome; `None` where there is no outcome of this number. The error is want of memory.
fn shown_output(
    alloc: Global,
    program: &mut Program,
    numbers: &StormNumbers,
    outcome: u32,
) -> Result<Option<Output>, AllocError>
    requires sound { Sound program.old }
    requires setting { IsSetting (setting_by numbers.now) }
    ensures shown { IfOk result (λ r. IfSome r (λ o. (bytes : List ℕ) → IsProgram bytes program.old → ShowsOutcome numbers.now outcome bytes o.end o.text.items)) }
    ensures lacks { IfOk result (λ r. r ≡ None → (bytes : List ℕ) → IsProgram bytes program.old → LacksOutcome numbers.now outcome bytes) }
{
    let setting = setting_of(numbers);
    let told = storm(
        alloc,
        program,
        &setting,
        numbers.seed,
        numbers.seeds,
        &OpenGate,
    )?;
    show_outcome(alloc, program, numbers, &told, outcome)
}

/// Whether a behaviour holds as a claim at each end of the storm of a program; `None` where the program has none of this name. The error
/// is want of memory.
fn claim_output(
    alloc: Global,
    program: &mut Program,
    numbers: &StormNumbers,
    name: &Line,
) -> Result<Option<Output>, AllocError>
    requires sound { Sound program.old }
    requires setting { IsSetting (setting_by numbers.now) }
    ensures tried { IfOk result (λ r. IfSome r (λ o. (bytes : List ℕ) → IsProgram bytes program.old → TriesClaim numbers.now name.now bytes o.end o.text.items)) }
    ensures lacks { IfOk result (λ r. r ≡ None → ¬ Contains (behaviour_names program.old) name.now) }
{
    let Some(behaviour) = behaviour_named(program, name) else {
        return Ok(None);
    };
    let setting = setting_of(numbers);
    let tried = try_claim(
        alloc,
        program,
        &setting,
        numbers.seed,
        numbers.seeds,
        behaviour,
        &OpenGate,
    )?;
    Ok(Some(tell_trial(alloc, program, numbers, &tried)?))
}

/// What is written of the outcomes of a storm. The error is want of memory.
pub(crate) fn tell_outcomes(
    alloc: Global,
    numbers: &StormNumbers,
    told: &Told,
) -> Result<Output, AllocError>
    requires { IsSetting (setting_by numbers.now) }
    ensures { IfOk result (λ o. (P : Program) (bytes : List ℕ) → Sound P → IsTold numbers.now P told.now → IsProgram bytes P
        → TellsOutcomes numbers.now bytes o.end o.text.items) }
{
    Ok(Output {
        text: storm_text(alloc, u64::from(numbers.seeds), told.totals, &told.outcomes)?,
        end: End::Done,
    })
}

/// What is written of one outcome of a storm: the run text of the simplest run with it; `None` where there is no outcome of this number. The
/// error is want of memory.
pub(crate) fn show_outcome(
    alloc: Global,
    program: &mut Program,
    numbers: &StormNumbers,
    told: &Told,
    outcome: u32,
) -> Result<Option<Output>, AllocError>
    requires sound { Sound program.old }
    requires setting { IsSetting (setting_by numbers.now) }
    requires told { IsTold numbers.now program.old told.now }
    ensures shown { IfOk result (λ r. IfSome r (λ o. (bytes : List ℕ) → IsProgram bytes program.old → ShowsOutcome numbers.now outcome bytes o.end o.text.items)) }
    ensures lacks { IfOk result (λ r. r ≡ None → (bytes : List ℕ) → IsProgram bytes program.old → LacksOutcome numbers.now outcome bytes) }
{
    let outcomes = told.outcomes.items();
    match outcomes.get(outcome as usize) {
        Some(shown) => Ok(Some(Output {
            text: run_text_with(alloc, program, numbers, shown.seed, &shown.script)?,
            end: End::Done,
        })),
        None => Ok(None),
    }
}

/// What is written of a storm in which a behaviour was tried as a claim: the totals where it holds at each end, and otherwise the run text
/// of the simplest run of the first broken outcome. The error is want of memory.
pub(crate) fn tell_trial(
    alloc: Global,
    program: &mut Program,
    numbers: &StormNumbers,
    tried: &Tried,
) -> Result<Output, AllocError>
    requires sound { Sound program.old }
    requires setting { IsSetting (setting_by numbers.now) }
    requires broken { IfSome tried.now.broken (λ shown. Sound (record program.old { script = shown.script })) }
    ensures { IfOk result (λ o. (behaviour : ℕ) (name bytes : List ℕ) → slice_get (behaviour_names program.old) behaviour ≡ Some name
        → IsTrialOf numbers.now program.old behaviour tried.now → IsProgram bytes program.old → TriesClaim numbers.now name bytes o.end o.text.items) }
{
    match &tried.broken {
        Some(shown) => Ok(Output {
            text: run_text_with(alloc, program, numbers, shown.seed, &shown.script)?,
            end: End::Claimed,
        }),
        None => Ok(Output {
            text: totals_text(
                alloc,
                u64::from(numbers.seeds),
                tried.told.totals,
                tried.told.outcomes.len() as u64,
            )?,
            end: End::Done,
        }),
    }
}

/// The number of the behaviour with this name.
pub(crate) fn behaviour_named(program: &Program, name: &Line) -> Option<u32>
    requires { length program.now.behaviours ≤ BEHAVIOUR_LIMIT }
    ensures named { IfSome result (λ b. slice_get (behaviour_names program.now) b ≡ Some name.now) }
    ensures none { result ≡ None → ¬ Contains (behaviour_names program.now) name.now }
{
    let behaviours = program.behaviours.items();
    for (number, behaviour) in behaviours.iter().enumerate() {
        if is_named(behaviour, name) {
            return Some(number as u32);
        }
    }
    None
}

/// Whether a behaviour has this name.
fn is_named(behaviour: &Behaviour, name: &Line) -> bool
    ensures { IsTrue result ↔ (behaviour.now.name ≡ name.now) }
{
    behaviour.name.bytes() == name.text().as_bytes()
}

/// The run text of the serial run with a seed of the program with another script. The error is want of memory.
fn run_text_with(
    alloc: Global,
    program: &mut Program,
    numbers: &StormNumbers,
    seed: u64,
    script: &Script,
) -> Result<Vec<u8>, AllocError>
    requires sound { Sound (record program.old { script = script.now }) }
    requires setting { IsSetting (setting_by numbers.now) }
    ensures { IfOk result (λ v. IsSerialText numbers.now seed (record program.old { script = script.now }) v.items) }
{
    program.script = script.copy()?;
    let ran = run_serially(alloc, program, numbers.jobs, seed, numbers.steps)?;
    let output = write_run(alloc, program, &ran.trace, ran.is_complete)?;
    Ok(output.text)
}

//! Runs that are found on a disk, kept and revived.
ghost use Rattle.std.specs.Prelude.{◌≡◌, None, IfOk, IfSome};
ghost use Rattle.tau_tree.specs.Sound.{Sound};
ghost use Rattle.tau_journal.specs.Records.{IsAtRest};
ghost use Rattle.tau_journal.specs.Gates.{gate_of};
ghost use Rattle.tau_revival.specs.Revival.{LeadsOn};

use crate::playing::made;
use crate::texts::{add_program, add_run, steps_with};
use std::alloc::{AllocError, Global};
use tau_journal::disk::Disk;
use tau_journal::{Journal, JournalError};
use tau_journaling::found::{find_legal, revive};
use tau_run_journal::keep_step;
use tau_script::{Cursor, opening_of};
use tau_sexpr::{FormError, Forms, read_forms};
use tau_steps::{StepError, steps_of};
use tau_trace::Trace;
use tau_tree::Program;

/// Adds the program and the legal run that are found on a disk, or why none are.
pub(crate) fn find<D: Disk>(
    alloc: Global,
    text: &mut String,
    disk: &mut D,
) -> Result<Option<Journal>, AllocError>
    ensures { IfOk result (λ o. IfSome o (λ j. IsAtRest (D.bytes disk.new) (D.images disk.new) (gate_of j))) }
{
    match find_legal(alloc, disk) {
        Ok(found) => {
            let added = add_judged(alloc, text, &found.program, &found.trace, found.complete);
            drop(found.program);
            drop(found.trace);
            added?;
            made(text, Ok(found.journal))
        }
        Err(error) => none(text, error),
    }
}

/// Adds a program and a run of it, and whether the run is complete.
pub(crate) fn add_judged(
    alloc: Global,
    text: &mut String,
    program: &Program,
    trace: &Trace,
    complete: bool,
) -> Result<(), AllocError>
    requires { Sound program.now }
{
    add_run(alloc, text, program, trace)?;
    add_complete(text, complete)
}

/// Adds whether a run is complete.
fn add_complete(text: &mut String, complete: bool) -> Result<(), AllocError> {
    text.push_str(if complete {
        "complete, "
    } else {
        "not complete, "
    })
}

/// Adds the program and the run that are found on a disk, legal or not, or why none are.
pub(crate) fn read<D: Disk>(
    alloc: Global,
    text: &mut String,
    disk: &mut D,
) -> Result<Option<Journal>, AllocError>
    ensures { IfOk result (λ o. IfSome o (λ j. IsAtRest (D.bytes disk.new) (D.images disk.new) (gate_of j))) }
{
    match tau_run_journal::find(alloc, disk) {
        Ok(found) => {
            let added = add_run(alloc, text, &found.program, &found.trace);
            drop(found.program);
            drop(found.trace);
            added?;
            made(text, Ok(found.journal))
        }
        Err(error) => none(text, error),
    }
}

/// Adds why there is no journal.
pub(crate) fn none(text: &mut String, error: JournalError) -> Result<Option<Journal>, AllocError>
    ensures { IfOk result (λ o. o ≡ None) }
{
    writeln!(text, "{error}")?;
    Ok(None)
}

/// Finds the run of a disk, and keeps it with one step more.
pub(crate) fn keep<D: Disk>(
    alloc: Global,
    text: &mut String,
    disk: &mut D,
    step: &str,
) -> Result<Option<Journal>, AllocError>
    ensures { IfOk result (λ o. IfSome o (λ j. IsAtRest (D.bytes disk.new) (D.images disk.new) (gate_of j))) }
{
    match find_legal(alloc, disk) {
        Ok(found) => {
            let longer = trace_with(alloc, &found.program, &found.trace, step);
            drop(found.program);
            drop(found.trace);
            keep_longer(alloc, text, disk, found.journal, longer?)
        }
        Err(error) => none(text, error),
    }
}

/// Keeps the last step of a trace that has one more than a journal, where there is one.
fn keep_longer<D: Disk>(
    alloc: Global,
    text: &mut String,
    disk: &mut D,
    journal: Journal,
    trace: Option<Trace>,
) -> Result<Option<Journal>, AllocError>
    requires { IsAtRest (D.bytes disk.old) (D.images disk.old) (gate_of journal) }
    ensures { IfOk result (λ o. IfSome o (λ j. IsAtRest (D.bytes disk.new) (D.images disk.new) (gate_of j))) }
{
    match trace {
        Some(trace) => {
            let kept = keep_last(alloc, text, disk, journal, &trace);
            drop(trace);
            kept
        }
        None => no_step(text),
    }
}

/// Adds that there is no step.
fn no_step(text: &mut String) -> Result<Option<Journal>, AllocError>
    ensures { IfOk result (λ o. o ≡ None) }
{
    text.push_str("no step\n")?;
    Ok(None)
}

/// Keeps the last step of a trace.
fn keep_last<D: Disk>(
    alloc: Global,
    text: &mut String,
    disk: &mut D,
    journal: Journal,
    trace: &Trace,
) -> Result<Option<Journal>, AllocError>
    requires { IsAtRest (D.bytes disk.old) (D.images disk.old) (gate_of journal) }
    ensures { IfOk result (λ o. IfSome o (λ j. IsAtRest (D.bytes disk.new) (D.images disk.new) (gate_of j))) }
{
    if trace.len() == 0 {
        return no_step(text);
    }
    made(text, keep_step(journal, alloc, disk, trace))
}

/// The trace with the step of a text behind it; `None` where the text has no step that may stand there.
fn trace_with(
    alloc: Global,
    program: &Program,
    trace: &Trace,
    step: &str,
) -> Result<Option<Trace>, AllocError>
    requires { Sound program.now }
{
    let steps = steps_with(alloc, trace, step)?;
    match read_forms(alloc, steps.as_bytes()) {
        Ok(forms) => {
            let longer = longer_by(alloc, program, trace, &forms);
            drop(forms);
            longer
        }
        Err(FormError::NoMemory) => Err(AllocError),
        Err(_) => Ok(None),
    }
}

/// The trace that forms mean, where they are one more than the steps of a trace.
fn longer_by(
    alloc: Global,
    program: &Program,
    trace: &Trace,
    forms: &Forms,
) -> Result<Option<Trace>, AllocError>
    requires { Sound program.now }
{
    let count = forms.len();
    if count != trace.len() as usize + 1 {
        return Ok(None);
    }
    let opening = opening_of(alloc, program)?;
    match steps_of(alloc, forms, 0, count, opening) {
        Ok(longer) => Ok(Some(longer)),
        Err(StepError::NoMemory) => Err(AllocError),
        Err(_) => Ok(None),
    }
}

/// Finds the run of a disk, and revives its program where the run isn't complete.
pub(crate) fn revive_found<D: Disk>(
    alloc: Global,
    text: &mut String,
    disk: &mut D,
) -> Result<Option<Journal>, AllocError>
    ensures { IfOk result (λ o. IfSome o (λ j. IsAtRest (D.bytes disk.new) (D.images disk.new) (gate_of j))) }
{
    match find_legal(alloc, disk) {
        Ok(found) => {
            let program = found.program;
            let trace = found.trace;
            let revived = if found.complete {
                add_whole(text, found.journal)
            } else {
                revive_run(
                    alloc,
                    text,
                    disk,
                    found.journal,
                    &program,
                    &trace,
                    found.cursor,
                )
            };
            drop(program);
            drop(trace);
            revived
        }
        Err(error) => none(text, error),
    }
}

/// Adds that the run of a journal is complete.
fn add_whole(text: &mut String, journal: Journal) -> Result<Option<Journal>, AllocError>
    ensures { IfOk result (λ o. IfSome o (λ j. j ≡ journal)) }
{
    add_complete(text, true)?;
    made(text, Ok(journal))
}

/// Revives a program, and adds the revival, or why there is none.
fn revive_run<D: Disk>(
    alloc: Global,
    text: &mut String,
    disk: &mut D,
    journal: Journal,
    program: &Program,
    trace: &Trace,
    cursor: Cursor,
) -> Result<Option<Journal>, AllocError>
    requires sound { Sound program.now }
    requires cursor { LeadsOn program.now.script trace.now.run cursor }
    requires rest { IsAtRest (D.bytes disk.old) (D.images disk.old) (gate_of journal) }
    ensures { IfOk result (λ o. IfSome o (λ j. IsAtRest (D.bytes disk.new) (D.images disk.new) (gate_of j))) }
{
    match revive(journal, alloc, disk, program, trace, cursor) {
        Ok(revived) => {
            let added = add_program(alloc, text, &revived.program);
            drop(revived.program);
            added?;
            text.push_str(", ")?;
            made(text, Ok(revived.journal))
        }
        Err(error) => none(text, error),
    }
}

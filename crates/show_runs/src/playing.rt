//! Calls of journals on any disk.
ghost use Rattle.std.specs.Prelude.{◌≡◌, Ok, IfOk, IfSome};
ghost use Rattle.tau_journal.specs.Records.{IsAtRest};
ghost use Rattle.tau_journal.specs.Gates.{gate_of};

use crate::making::{begin, create};
use crate::recording::{resume, run};
use crate::records::records;
use crate::runs::{find, keep, read, revive_found};
use crate::texts::{full_of, lines_of};
use std::alloc::{AllocError, Global};
use tau_journal::disk::Disk;
use tau_journal::{Journal, JournalError};
use tau_run_journal::keep_mark;

/// Makes the call of each line on a disk, and adds what it answers.
pub(crate) fn play<D: Disk>(
    alloc: Global,
    text: &mut String,
    disk: &mut D,
    lines: &str,
) -> Result<(), AllocError> {
    let mut journal = None;
    for line in lines.lines() {
        write!(text, "{line}: ")?;
        journal = call(alloc, text, disk, journal, line)?;
    }
    Ok(())
}

/// Makes a call; the journal that it leaves.
fn call<D: Disk>(
    alloc: Global,
    text: &mut String,
    disk: &mut D,
    journal: Option<Journal>,
    line: &str,
) -> Result<Option<Journal>, AllocError>
    requires { IfSome journal (λ j. IsAtRest (D.bytes disk.old) (D.images disk.old) (gate_of j)) }
    ensures { IfOk result (λ o. IfSome o (λ j. IsAtRest (D.bytes disk.new) (D.images disk.new) (gate_of j))) }
{
    let (verb, rest) = line.split_once(" ").unwrap_or((line, ""));
    match verb {
        "append" | "mark" => match journal {
            Some(journal) => go_on(alloc, text, disk, journal, verb, rest),
            None => {
                text.push_str("no journal\n")?;
                Ok(None)
            }
        },
        "create" | "full" | "begin" | "run" => make(alloc, text, disk, verb, rest),
        _ => look(alloc, text, disk, verb, rest),
    }
}

/// Appends a record, or a mark.
fn go_on<D: Disk>(
    alloc: Global,
    text: &mut String,
    disk: &mut D,
    journal: Journal,
    verb: &str,
    rest: &str,
) -> Result<Option<Journal>, AllocError>
    requires { IsAtRest (D.bytes disk.old) (D.images disk.old) (gate_of journal) }
    ensures { IfOk result (λ o. IfSome o (λ j. IsAtRest (D.bytes disk.new) (D.images disk.new) (gate_of j))) }
{
    if verb == "mark" {
        return made(text, keep_mark(journal, alloc, disk));
    }
    let record = lines_of(alloc, rest)?;
    made(text, journal.append(alloc, disk, record.as_bytes()))
}

/// Makes a journal.
fn make<D: Disk>(
    alloc: Global,
    text: &mut String,
    disk: &mut D,
    verb: &str,
    rest: &str,
) -> Result<Option<Journal>, AllocError>
    ensures { IfOk result (λ o. IfSome o (λ j. IsAtRest (D.bytes disk.new) (D.images disk.new) (gate_of j))) }
{
    match verb {
        "create" => create(alloc, text, disk, &lines_of(alloc, rest)?),
        "full" => create(alloc, text, disk, &full_of(alloc, rest)?),
        "run" => run(alloc, text, disk, &lines_of(alloc, rest)?),
        _ => begin(alloc, text, disk, &lines_of(alloc, rest)?),
    }
}

/// Makes a call that finds what is on the disk first.
pub(crate) fn look<D: Disk>(
    alloc: Global,
    text: &mut String,
    disk: &mut D,
    verb: &str,
    rest: &str,
) -> Result<Option<Journal>, AllocError>
    ensures { IfOk result (λ o. IfSome o (λ j. IsAtRest (D.bytes disk.new) (D.images disk.new) (gate_of j))) }
{
    match verb {
        "records" => records(alloc, text, disk),
        "find" => find(alloc, text, disk),
        "read" => read(alloc, text, disk),
        "keep" => keep(alloc, text, disk, rest),
        "revive" => revive_found(alloc, text, disk),
        "resume" => resume(alloc, text, disk),
        _ => {
            text.push_str("no such call\n")?;
            Ok(None)
        }
    }
}

/// Adds the place of the gate of a journal that was left, or why none was.
pub(crate) fn made(
    text: &mut String,
    answer: Result<Journal, JournalError>,
) -> Result<Option<Journal>, AllocError>
    ensures { IfOk result (λ o. IfSome o (λ j. answer ≡ Ok j)) }
{
    match answer {
        Ok(journal) => {
            let gate = journal.gate();
            writeln!(text, "gate at {gate}")?;
            Ok(Some(journal))
        }
        Err(error) => {
            writeln!(text, "{error}")?;
            Ok(None)
        }
    }
}

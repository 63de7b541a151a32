//! Reading what the records of a journal stand for.
ghost use Rattle.std.specs.Prelude.{◌≡◌, ◌+◌, ◌<◌, ◌≤◌, ℕ, List, IfOk, IsErrOf, length, take, slice_get};
ghost use Rattle.tau_tree.specs.Sound.{Sound};
ghost use Rattle.tau_journal.specs.Room.{IsFaultOrFailure};
ghost use Rattle.tau_revival.specs.Revival.{LeadsOn};
ghost use Rattle.tau_run_journal.specs.Laws.{IsRunOf};
ghost use Rattle.tau_run_journal.specs.Standing.{IsProgramText, StandsFor};
ghost use Rattle.tau_run_journal.specs.Reading.{HasNoProgram, IsReadAs};
ghost use Rattle.tau_run_journal.specs.Inner.Items.{TellsProgram, TakesMark, IsFaultyAt, IsPassed};

use crate::RecordFault;
use crate::items::take_item;
use crate::texts::{is_mark, same_bytes};
use std::alloc::{AllocError, Global};
use tau_journal::{JournalError, Records};
use tau_revival::laws::cursors_lead_on;
use tau_revival::{ReviveError, revive};
use tau_script::{Cursor, opening_of};
use tau_text::{InputError, program_text, read_program};
use tau_trace::Trace;
use tau_tree::Program;

/// The number of the fault of a first record that is no program's text.
const NO_PROGRAM: u8 = 3;

/// What the records of a journal stand for, as far as they do (docs/journal.md, "What the records mean").
#[derive(Drop)]
pub struct Standing {
    /// The program, as it was revived so far.
    pub program: Program,
    /// Its run so far.
    pub trace: Trace,
    /// The cursor of its script at the end of the run, which may have entries to pass over there.
    pub cursor: Cursor,
    /// Why the next record can't stand there; `None` where all records were read.
    pub fault: Option<RecordFault>,
}

/// What records stand for: all of them, or those before the first that can't stand where it does, whose fault is told
/// (docs/journal.md, "What the records mean", "Faults"). Whether the steps are legal isn't asked.
///
/// Fault 3 at 0 comes exactly where the first record isn't the text of a program. The time goes with the bytes, and with the
/// program and its script once more for each record that says that the run went on.
pub fn read_records(alloc: Global, records: &Records) -> Result<Standing, JournalError>
    requires { 1 ≤ length records.now }
    ensures read { IfOk result (λ s. IsReadAs records.now s.program s.trace.run s.fault) }
    ensures run { IfOk result (λ s. IsRunOf s.program s.trace.run) }
    ensures cursor { IfOk result (λ s. LeadsOn s.program.script s.trace.run s.cursor) }
    ensures fault { (fault at : ℕ) → IsErrOf result (JournalError.Fault fault at) → (fault ≡ 3) × (at ≡ 0) × HasNoProgram records.now }
    ensures faulty { HasNoProgram records.now → IsFaultOrFailure 3 0 result }
    ensures no_disk { IsErrOf result JournalError.DiskFault → ⊥ }
{
    let first = first_program(alloc, records)?;
    match first {
        Some(program) => Ok(read_later(alloc, records, program)?),
        None => Err(JournalError::Fault {
            fault: NO_PROGRAM,
            at: 0,
        }),
    }
}

/// What records stand for whose first is the text of the program.
fn read_later(alloc: Global, records: &Records, program: Program) -> Result<Standing, AllocError>
    requires some { 1 ≤ length records.now }
    requires first { (r : List ℕ) → slice_get records.now 0 ≡ Some r → IsProgramText program r }
    ensures read { IfOk result (λ s. IsReadAs records.now s.program s.trace.run s.fault) }
    ensures cursor { IfOk result (λ s. LeadsOn s.program.script s.trace.run s.cursor) }
{
    let passed = pass(alloc, records, program, records.len())?;
    match passed.fault {
        Some(fault) => match fault {
            RecordFault::Item { record: place } => read_before(alloc, records, place),
            RecordFault::ScriptFull { .. } => Ok(passed),
        },
        None => Ok(passed),
    }
}

/// What those records stand for that come before the first that can't stand where it does. They are read a second time, since nothing is
/// promised of the trace of a pass that met it.
fn read_before(alloc: Global, records: &Records, place: u64) -> Result<Standing, AllocError>
    requires some { 1 ≤ length records.now }
    requires faulty { IsFaultyAt records.now place }
    ensures read { IfOk result (λ s. IsReadAs records.now s.program s.trace.run s.fault) }
    ensures cursor { IfOk result (λ s. LeadsOn s.program.script s.trace.run s.cursor) }
{
    let first = first_program(alloc, records)?;
    match first {
        Some(program) => {
            let mut before = pass(alloc, records, program, place as usize)?;
            before.fault = Some(RecordFault::Item { record: place });
            Ok(before)
        }
        None => unreachable!(),
    }
}

/// The program of the first record; `None` where it is no program's text.
fn first_program(alloc: Global, records: &Records) -> Result<Option<Program>, AllocError>
    requires { 1 ≤ length records.now }
    ensures { IfOk result (λ o. (r : List ℕ) → slice_get records.now 0 ≡ Some r → TellsProgram r o) }
{
    match records.item(0) {
        Some(record) => program_of_text(alloc, record),
        None => unreachable!(),
    }
}

/// The program whose text a record is; `None` where it is no program's text.
fn program_of_text(alloc: Global, bytes: &[u8]) -> Result<Option<Program>, AllocError>
    ensures { IfOk result (TellsProgram bytes.now) }
{
    match read_program(alloc, bytes) {
        Ok(program) => {
            let text = program_text(alloc, &program)?;
            if same_bytes(&text, bytes) {
                Ok(Some(program))
            } else {
                Ok(None)
            }
        }
        Err(InputError::Fault { .. }) => Ok(None),
        Err(InputError::NoMemory) => Err(AllocError),
    }
}

/// One pass over the first records, up to the first that has a fault. The program is that of the first record. Where a record is no text
/// of a step, only its place is told.
fn pass(
    alloc: Global,
    records: &Records,
    program: Program,
    end: usize,
) -> Result<Standing, AllocError>
    requires some { 1 ≤ end }
    requires within { end ≤ length records.now }
    requires first { (r : List ℕ) → slice_get records.now 0 ≡ Some r → IsProgramText program r }
    ensures { IfOk result (λ s. IsPassed records.now end s.program s.trace.run s.cursor s.fault) }
{
    cursors_lead_on();
    let opening = opening_of(alloc, &program)?;
    let mut read = Standing {
        trace: Trace::begin(alloc, opening)?,
        program,
        cursor: Cursor::first(),
        fault: None,
    };
    let mut text = Vec::new(alloc);
    for place in 1..end {
        let fault = take_record(alloc, &mut read, &mut text, records, place)?;
        if fault.is_some() {
            read.fault = fault;
            return Ok(read);
        }
    }
    Ok(read)
}

/// Takes the record at a place behind those that were taken, or tells its fault. The text is a buffer.
fn take_record(
    alloc: Global,
    read: &mut Standing,
    text: &mut Vec<u8>,
    records: &Records,
    place: usize,
) -> Result<Option<RecordFault>, AllocError>
    requires behind { 0 < place }
    requires within { place < length records.now }
    requires stand { StandsFor (take place records.now) read.old.program read.old.trace.run }
    requires cursor { LeadsOn read.old.program.script read.old.trace.run read.old.cursor }
    ensures taken { IfOk result (IsPassed records.now (place + 1) read.new.program read.new.trace.run read.new.cursor) }
    ensures fault { read.new.fault ≡ read.old.fault }
{
    let Some(record) = records.item(place) else {
        unreachable!()
    };
    if is_mark(record) {
        return take_mark(alloc, &mut read.program, &mut read.cursor, &read.trace);
    }
    let script = &read.program.script;
    let taken = take_item(
        alloc,
        script,
        &mut read.cursor,
        &mut read.trace,
        text,
        record,
    )?;
    if taken {
        Ok(None)
    } else {
        Ok(Some(RecordFault::Item {
            record: place as u64,
        }))
    }
}

/// Revives the program, or tells that there is no room for it.
fn take_mark(
    alloc: Global,
    program: &mut Program,
    cursor: &mut Cursor,
    trace: &Trace,
) -> Result<Option<RecordFault>, AllocError>
    requires sound { Sound program.old }
    requires cursor { LeadsOn program.old.script trace.now.run cursor.old }
    ensures taken { IfOk result (TakesMark program.old trace.now.run program.new) }
    ensures cursor { IfOk result (λ _. LeadsOn program.new.script trace.now.run cursor.new) }
{
    match revive(alloc, program, trace, cursor) {
        Ok(revived) => {
            *program = revived;
            Ok(None)
        }
        Err(ReviveError::ScriptFull { entries }) => Ok(Some(RecordFault::ScriptFull { entries })),
        Err(ReviveError::NoMemory) => Err(AllocError),
    }
}

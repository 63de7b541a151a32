//! Reading the records of a journal, whose steps must be legal.
ghost use Rattle.std.specs.Prelude.{◌≡◌, ◌≤◌, ◌↔◌, ℕ, IfOk, IsErrOf, IsTrue, length};
ghost use Rattle.tau_legal.specs.Traces.{Legal, Complete};
ghost use Rattle.tau_journal.specs.Room.{IsFaultOrFailure};
ghost use Rattle.tau_journal.specs.Gates.{gate_of};
ghost use Rattle.tau_revival.specs.Revival.{LeadsOn};
ghost use Rattle.tau_run_journal.specs.Laws.{IsRunOf};
ghost use Rattle.tau_run_journal.specs.Standing.{StandsFor};
ghost use Rattle.tau_journaling.specs.Found.Faults.{IsRunFault};

use std::alloc::Global;
use tau_check::{Legality, check};
use tau_journal::{Journal, JournalError, Records};
use tau_revival::laws::revival_keeps_steps;
use tau_run_journal::read_records;
use tau_script::Cursor;
use tau_trace::Trace;
use tau_tree::Program;

/// The number of the fault of a step that isn't legal.
const ILLEGAL: u8 = 5;

/// What was found on a disk: its journal, and the program and the legal trace that the records stand for.
#[derive(Drop)]
pub struct FoundRun {
    pub journal: Journal,
    pub program: Program,
    pub trace: Trace,
    /// The cursor of the script at the end of the trace, which may have entries to pass over there.
    pub cursor: Cursor,
    /// Whether the trace is complete (docs/definitions.md, "Complete").
    pub complete: bool,
}

/// What the records of a journal stand for, where all steps are legal; otherwise the fault of the first record that isn't in
/// order.
///
/// The steps are judged once, by the last program: each is legal for it exactly where it is for the program of the records
/// before it.
pub(crate) fn legal_run(
    alloc: Global,
    journal: Journal,
    records: &Records,
) -> Result<FoundRun, JournalError>
    requires { 1 ≤ length records.now }
    ensures journal { IfOk result (λ f. gate_of f.journal ≡ gate_of journal) }
    ensures stand { IfOk result (λ f. StandsFor records.now f.program f.trace.run) }
    ensures run { IfOk result (λ f. IsRunOf f.program f.trace.run) }
    ensures cursor { IfOk result (λ f. LeadsOn f.program.script f.trace.run f.cursor) }
    ensures legal { IfOk result (λ f. Legal f.program f.trace.run) }
    ensures complete { IfOk result (λ f. IsTrue f.complete ↔ Complete f.program f.trace.run) }
    ensures fault { (fault at : ℕ) → IsErrOf result (JournalError.Fault fault at) → IsRunFault records.now fault at }
    ensures faulty { (fault at : ℕ) → IsRunFault records.now fault at → IsFaultOrFailure fault at result }
    ensures no_disk { IsErrOf result JournalError.DiskFault → ⊥ }
{
    revival_keeps_steps();
    let standing = read_records(alloc, records)?;
    let legality = check(alloc, &standing.program, &standing.trace)?;
    match legality {
        Legality::Legal { complete } => match standing.fault {
            None => Ok(FoundRun {
                journal,
                program: standing.program,
                trace: standing.trace,
                cursor: standing.cursor,
                complete,
            }),
            Some(fault) => Err(fault.error()),
        },
        Legality::Bad { place } => Err(JournalError::Fault {
            fault: ILLEGAL,
            at: place as u64,
        }),
    }
}

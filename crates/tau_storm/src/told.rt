//! The outcomes that rows tell.
ghost use Rattle.std.specs.Prelude.{◌≡◌, ◌++◌, List, IsPermutation, IfOk, OnOk};
ghost use Rattle.tau_faults.specs.Ends.{End};
ghost use Rattle.tau_storm.specs.Outcomes.{AreOutcomes};
ghost use Rattle.tau_storm.specs.Inner.Counting as counting;
ghost use Rattle.tau_storm.specs.Inner.Counting.{outcomes_of};

use crate::outcomes::{Lines, Outcome, Outcomes};
use crate::rows::{Row, Rows, add};
use std::alloc::{AllocError, Global};

/// The outcome that a row tells.
fn outcome_of(lines: Vec<u8>, row: Row) -> Outcome
    ensures { result ≡ counting.outcome_of lines.items row }
{
    Outcome {
        lines: Lines::from_vec(lines),
        runs: row.runs,
        seed: row.seed,
        faults: row.faults,
        steps: row.steps,
        script: row.script,
    }
}

/// The outcomes that rows tell, in some order. The error is want of memory.
pub(crate) fn told(alloc: Global, mut rows: Rows) -> Result<Vec<Outcome>, AllocError>
    ensures { IfOk result (λ v. IsPermutation (outcomes_of rows.entries) v.items) }
{
    let mut outcomes = Vec::with_capacity(alloc, rows.len())?;
    while let Some((lines, row)) = rows.pop() {
        outcomes.push(outcome_of(lines, row))?;
    }
    Ok(outcomes)
}

/// The lines and the row of an outcome.
fn row_of(outcome: Outcome) -> (Vec<u8>, Row)
    ensures { counting.outcome_of result.0.items result.1 ≡ outcome }
{
    let row = Row {
        runs: outcome.runs,
        seed: outcome.seed,
        faults: outcome.faults,
        steps: outcome.steps,
        script: outcome.script,
    };
    (outcome.lines.into_vec(), row)
}

/// Adds to rows the outcomes of ends that came behind. The error is want of memory, or of numbers.
pub(crate) fn add_told(rows: &mut Rows, outcomes: Outcomes) -> Result<(), AllocError>
    ensures { OnOk result ((front back : List End) → AreOutcomes front (outcomes_of rows.old.entries) → AreOutcomes back outcomes
        → AreOutcomes (front ++ back) (outcomes_of rows.new.entries)) }
{
    let mut left = outcomes.into_vec();
    while let Some(outcome) = left.pop() {
        let (lines, row) = row_of(outcome);
        add(rows, lines, row)?;
    }
    Ok(())
}

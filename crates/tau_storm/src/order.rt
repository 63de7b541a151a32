//! The order of outcomes.
ghost use Rattle.std.specs.Prelude.{◌≡◌, IsPermutation, IsSorted, OnOk};
ghost use Rattle.tau_storm.specs.Inner.Ordered.{outcome_cmp};

use crate::outcomes::Outcome;
use std::alloc::AllocError;
use std::cmp::Ordering;

/// Which of two outcomes is written first (docs/formats.md, "Storm"): by the faults of their simplest runs, then by the steps
/// of these, then by the bytes of their lines.
fn compare(a: &Outcome, b: &Outcome) -> Ordering
    ensures { result ≡ outcome_cmp a.now b.now }
{
    a.faults
        .cmp(&b.faults)
        .then(a.steps.cmp(&b.steps))
        .then(a.lines.bytes().cmp(&b.lines.bytes()))
}

/// Puts outcomes in order. The error is want of memory.
pub(crate) fn sort(outcomes: &mut Vec<Outcome>) -> Result<(), AllocError>
    ensures same { IsPermutation outcomes.old.items outcomes.new.items }
    ensures sorted { OnOk result (IsSorted outcome_cmp outcomes.new.items) }
{
    outcomes.sort_by(
        |a: &Outcome, b: &Outcome| -> Ordering
            ensures { result ≡ outcome_cmp a.now b.now }
        { compare(a, b) },
    )
}

//! The text that tells a storm, put line by line: no form of it is made.
ghost use Rattle.std.specs.Prelude.{◌≡◌, ◌∷◌, ◌++◌, [], length, IfOk, OnOk};
ghost use Rattle.std.specs.Fmt.{decimal};
ghost use Rattle.tau_sexpr.specs.Printing.{print_of, printed};
ghost use Rattle.tau_report.specs.Report.{count_of};
ghost use Rattle.tau_storm.specs.Lines as lines;
ghost use Rattle.tau_storm.specs.Lines.{totals_form, outcome_form};

use crate::outcomes::{Outcome, Outcomes};
use crate::totals::Totals;
use itoa::Buffer;
use std::alloc::{AllocError, Global};

/// Adds a space and a number.
fn put_count(out: &mut Vec<u8>, count: u64) -> Result<(), AllocError>
    ensures { OnOk result (out.new.items ≡ out.old.items ++ 32 ∷ decimal count) }
{
    out.push(b' ')?;
    let mut buffer = Buffer::new();
    out.extend_from_slice(buffer.format(count).as_bytes())
}

/// Adds a space and a number with its word in brackets.
fn put_named(out: &mut Vec<u8>, name: &[u8], count: u64) -> Result<(), AllocError>
    ensures { OnOk result (out.new.items ≡ out.old.items ++ 32 ∷ print_of (count_of name.now count)) }
{
    out.extend_from_slice(b" (")?;
    out.extend_from_slice(name)?;
    put_count(out, count)?;
    out.push(b')')?;
    Ok(())
}

/// Adds the first line.
fn put_totals(
    out: &mut Vec<u8>,
    seeds: u64,
    totals: Totals,
    outcomes: u64,
) -> Result<(), AllocError>
    ensures { OnOk result (out.new.items ≡ out.old.items ++ printed (totals_form seeds totals outcomes ∷ [])) }
{
    out.extend_from_slice(b"(storm")?;
    put_named(out, b"seeds", seeds)?;
    put_named(out, b"runs", totals.runs)?;
    put_named(out, b"complete", totals.complete)?;
    put_named(out, b"open", totals.stopped)?;
    put_named(out, b"steps", totals.steps)?;
    put_named(out, b"outcomes", outcomes)?;
    out.extend_from_slice(b")\n")?;
    Ok(())
}

/// Adds the line of an outcome with its number.
fn put_front(out: &mut Vec<u8>, number: u64, outcome: &Outcome) -> Result<(), AllocError>
    ensures { OnOk result (out.new.items ≡ out.old.items ++ printed (outcome_form number outcome.now ∷ [])) }
{
    out.extend_from_slice(b"(outcome")?;
    put_count(out, number)?;
    put_named(out, b"runs", outcome.runs)?;
    put_named(out, b"seed", outcome.seed)?;
    put_named(out, b"faults", u64::from(outcome.faults))?;
    put_named(out, b"steps", u64::from(outcome.steps))?;
    out.extend_from_slice(b")\n")?;
    Ok(())
}

/// Adds that line and the outcome's own.
fn put_outcome(out: &mut Vec<u8>, number: u64, outcome: &Outcome) -> Result<(), AllocError>
    ensures { OnOk result (out.new.items ≡ out.old.items ++ printed (outcome_form number outcome.now ∷ []) ++ outcome.now.lines) }
{
    put_front(out, number, outcome)?;
    out.extend_from_slice(outcome.lines.bytes())
}

/// The text that tells a storm (docs/formats.md, "Storm"): how many seeds there were, the totals of the ends, and the outcomes,
/// each by a line with its number and by its own lines. The error is want of memory.
pub fn storm_text(
    alloc: Global,
    seeds: u64,
    totals: Totals,
    outcomes: &Outcomes,
) -> Result<Vec<u8>, AllocError>
    ensures { IfOk result (λ v. v.items ≡ lines.storm_text seeds totals outcomes.now) }
{
    let mut text = Vec::new(alloc);
    put_totals(&mut text, seeds, totals, outcomes.len() as u64)?;
    let items = outcomes.items();
    for (number, outcome) in items.iter().enumerate() {
        put_outcome(&mut text, number as u64, outcome)?;
    }
    Ok(text)
}

/// The first line of that text alone, with the number of the outcomes. The error is want of memory.
pub fn totals_text(
    alloc: Global,
    seeds: u64,
    totals: Totals,
    outcomes: u64,
) -> Result<Vec<u8>, AllocError>
    ensures { IfOk result (λ v. v.items ≡ printed (totals_form seeds totals outcomes ∷ [])) }
{
    let mut text = Vec::new(alloc);
    put_totals(&mut text, seeds, totals, outcomes)?;
    Ok(text)
}

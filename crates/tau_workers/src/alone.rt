//! What the caller makes alone of a book that workers have left.
ghost use Rattle.std.specs.Prelude.{◌≡◌, ◌⊎◌, ◌≤◌, IfOk, OnOk};
ghost use Rattle.tau_legal.specs.Ends.{EndsAt};
ghost use Rattle.tau_book.specs.declared.limits.TheConstants.{JOB_LIMIT};
ghost use Rattle.tau_book.specs.Alone.{IsRunAfter};
ghost use Rattle.tau_book.specs.Books.{IsComplete, IsAtLimit};
ghost use Rattle.tau_book.specs.Onward.{BeginsWith, GoesOnFrom};

use std::alloc::{AllocError, Global};
use tau_book::{Book, Hand, Ran, adopted_has_all_jobs, adopted_is_at_work, make_rest};
use tau_verdicts::MarkedHearing;

/// What comes of a book that workers have left (docs/rules.md, "Workers"). Where it is finished, that is the answer. Where it isn't, the
/// book gives up all returned jobs and adopts one for each open turn, and one hand, with room for 1 to `JOB_LIMIT` jobs and with words of
/// `Pcg32` seeded with `seed`, makes the steps that are left (docs/definitions.md, "Run after a run"). The error is want of memory, and the
/// book is given up then.
pub fn finish(
    alloc: Global,
    mut book: Book<'_, MarkedHearing>,
    seed: u64,
    jobs: u32,
) -> Result<Ran, AllocError>
    requires some { 1 ≤ jobs }
    requires few { jobs ≤ JOB_LIMIT }
    ensures ends { IfOk result (λ r. EndsAt book.entry.limit book.entry.system.program r.trace.run r.is_complete) }
    ensures begins { IfOk result (λ r. BeginsWith book.entry.system.run r.trace.run) }
    ensures finished { IfOk result (λ r. IsComplete book.entry ⊎ IsAtLimit book.entry → r.trace.run ≡ book.entry.system.run) }
    ensures after { IfOk result (λ r. (¬ IsComplete book.entry) → (¬ IsAtLimit book.entry)
        → IsRunAfter book.entry.system.program jobs seed book.entry.limit book.entry.system.run r.trace.run) }
{
    go_on(alloc, &mut book, seed, jobs)?;
    // What holds of the book.
    let _system = book.system();
    let is_complete = book.finished().unwrap_or(false);
    Ok(Ran {
        trace: book.into_trace(),
        is_complete,
    })
}

/// Makes the steps that are left of a book, if it isn't finished. The error is want of memory.
fn go_on<'p>(
    alloc: Global,
    book: &mut Book<'p, MarkedHearing>,
    seed: u64,
    jobs: u32,
) -> Result<(), AllocError>
    requires some { 1 ≤ jobs }
    requires few { jobs ≤ JOB_LIMIT }
    ensures grows { OnOk result (GoesOnFrom book.old book.new) }
    ensures over { OnOk result (IsComplete book.new ⊎ IsAtLimit book.new) }
    ensures finished { OnOk result (IsComplete book.old ⊎ IsAtLimit book.old → book.new ≡ book.old) }
    ensures after { OnOk result ((¬ IsComplete book.old) → (¬ IsAtLimit book.old)
        → IsRunAfter book.old.system.program jobs seed book.old.limit book.old.system.run book.new.system.run) }
{
    adopted_is_at_work();
    adopted_has_all_jobs();
    if book.finished().is_some() {
        return Ok(());
    }
    book.give_up();
    book.adopt()?;
    let mut hand = Hand::new(alloc, seed, jobs)?;
    make_rest(book, &mut hand)
}

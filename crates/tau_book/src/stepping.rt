//! The steps of one hand over a book.
ghost use Rattle.std.specs.Prelude.{◌≡◌, ◌⊎◌, ◌<◌, ◌≤◌, ℕ, IsTrue, IsFalse, IfOk, OnOk, OnErr, length};
ghost use Rattle.tau_trace.specs.declared.step.Step.{Step};
ghost use Rattle.tau_trace.specs.Run.{Run, len};
ghost use Rattle.tau_rules.specs.System.{with_step};
ghost use Rattle.tau_book.specs.Books.{IsComplete, IsAtLimit};
ghost use Rattle.tau_book.specs.Alone.{IsRunAfter};
ghost use Rattle.tau_book.specs.Onward.{GoesOnFrom};
ghost use Rattle.tau_book.specs.Working.{HasAllJobs, IsAtWork};
ghost use Rattle.tau_book.specs.Inner.Working.{HasHandedOut, HasChosen};

use crate::{Book, Gate, Hand, Next, OpenGate};
use std::alloc::AllocError;
use tau_eval::{Job, Pending};
use tau_verdicts::MarkedHearing;

/// The number of the one worker.
const WORKER: u32 = 0;

/// Makes the next step of a book by its one hand (docs/rules.md, "Choice of a worker"): what `next` answers, and for a job the step of
/// its next effect, evaluated between `enter` and `leave` of the gate for worker 0. `false` where there is none to make, since the run
/// is complete or has as many steps as the limit. Where the hand and the returned jobs have exactly one job of each open turn, so they
/// have afterwards, and where the hand makes a run behind the steps of another, it goes on with it (docs/definitions.md, "Run after a run").
/// The error is want of memory, and no step is made then.
pub fn next_step<'p, G: Gate>(
    book: &mut Book<'p, MarkedHearing>,
    hand: &mut Hand<'p>,
    gate: &G,
) -> Result<bool, AllocError>
    requires { HasAllJobs book.old hand.old }
    ensures jobs { OnOk result (HasAllJobs book.new hand.new) }
    ensures works { OnOk result ((seed : ℕ) (start : Run) → IsAtWork seed start book.old hand.old → IsAtWork seed start book.new hand.new) }
    ensures stepped { IfOk result (λ b. IsTrue b → (s : Step) × (book.new.system ≡ with_step book.old.system s)) }
    ensures over { IfOk result (λ b. IsFalse b → (book.new.system ≡ book.old.system) × (IsComplete book.new ⊎ IsAtLimit book.new)) }
    ensures on_err { OnErr result (book.new.system ≡ book.old.system) }
    ensures limit { book.new.limit ≡ book.old.limit }
    ensures size { hand.new.size ≡ hand.old.size }
{
    match book.next(hand)? {
        Next::Work(job) => {
            evaluate(book, hand, job, gate)?;
            Ok(true)
        }
        Next::Stepped => Ok(true),
        Next::Complete | Next::Stopped => Ok(false),
        Next::Idle { .. } => unreachable!(),
    }
}

/// Makes the steps that are left of a book by its one hand, as `next_step` does, until the run is complete or has as many steps as the
/// limit. Where the hand makes a run behind the steps of another, it is that one (docs/definitions.md, "Run after a run"). The error is
/// want of memory.
pub fn make_rest<'p>(
    book: &mut Book<'p, MarkedHearing>,
    hand: &mut Hand<'p>,
) -> Result<(), AllocError>
    requires { HasAllJobs book.old hand.old }
    ensures grows { OnOk result (GoesOnFrom book.old book.new) }
    ensures over { OnOk result (IsComplete book.new ⊎ IsAtLimit book.new) }
    ensures after { OnOk result ((seed : ℕ) (start : Run) → IsAtWork seed start book.old hand.old
        → IsRunAfter book.old.system.program hand.old.size seed book.old.limit start book.new.system.run) }
{
    make_steps(book, hand)?;
    // That its run has no more steps than the limit.
    let _system = book.system();
    Ok(())
}

/// Makes steps until there is none to make, or as many as the limit.
fn make_steps<'p>(book: &mut Book<'p, MarkedHearing>, hand: &mut Hand<'p>) -> Result<(), AllocError>
    requires { HasAllJobs book.old hand.old }
    ensures works { OnOk result ((seed : ℕ) (start : Run) → IsAtWork seed start book.old hand.old → IsAtWork seed start book.new hand.new) }
    ensures grows { OnOk result (GoesOnFrom book.old book.new) }
    ensures size { OnOk result (hand.new.size ≡ hand.old.size) }
    ensures over { OnOk result (IsComplete book.new ⊎ (book.new.limit ≤ len book.new.system.run)) }
{
    for _ in 0..book.limit() {
        if !next_step(book, hand, &OpenGate)? {
            return Ok(());
        }
    }
    Ok(())
}

/// Evaluates a job up to its next effect, and makes the step of that. The error is want of memory, and no step is made then.
fn evaluate<'p, G: Gate>(
    book: &mut Book<'p, MarkedHearing>,
    hand: &mut Hand<'p>,
    job: Job<'p>,
    gate: &G,
) -> Result<(), AllocError>
    requires handed_out { HasHandedOut book.old hand.old job }
    requires room { length hand.old.jobs < hand.old.size }
    ensures jobs { OnOk result (HasAllJobs book.new hand.new) }
    ensures works { OnOk result ((seed : ℕ) (start : Run) → HasChosen seed start book.old hand.old job.entry → IsAtWork seed start book.new hand.new) }
    ensures stepped { OnOk result ((s : Step) × (book.new.system ≡ with_step book.old.system s)) }
    ensures on_err { OnErr result (book.new.system ≡ book.old.system) }
    ensures limit { book.new.limit ≡ book.old.limit }
    ensures size { hand.new.size ≡ hand.old.size }
{
    let pending = advance(job, gate)?;
    book.act_open(hand, pending)
}

/// Evaluates a job up to its next effect, between the calls of the gate. The error is want of memory.
fn advance<'p, G: Gate>(job: Job<'p>, gate: &G) -> Result<Pending<'p>, AllocError>
    ensures { IfOk result (λ p. p ≡ job.entry) }
{
    let turn = job.turn();
    gate.enter(WORKER, turn);
    let advanced = job.advance();
    gate.leave(WORKER, turn);
    match advanced {
        Ok(pending) => Ok(pending),
        Err((_job, failed)) => Err(failed),
    }
}

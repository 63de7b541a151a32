//! The jobs of open turns, each at the place of its transactor.
ghost use Rattle.std.specs.Prelude.{◌≡◌, ◌≤◌, ℕ, Option, Some, OnOk, slice_get, length};
ghost use Rattle.tau_eval.specs.Turn as turns;
ghost use Rattle.tau_check.specs.Inner.Jobs.{IsKeptFor, KeepsOthers, IsKeptWith, IsKeptBegun, IsKeptAfter};

use std::alloc::AllocError;
use tau_eval::{Job, Pending};
use tau_rules::Delivered;
use tau_value::Value;

/// Takes out the job of a transactor, which has one.
pub(crate) fn take_job<'p>(jobs: &mut Vec<Option<Job<'p>>>, who: u32) -> Job<'p>
    requires { IsKeptFor who jobs.old.items }
    ensures job { slice_get jobs.old.items who ≡ Some (Some result) }
    ensures others { KeepsOthers who jobs.old.items jobs.new.items }
{
    match jobs[who as usize].take() {
        Some(job) => job,
        None => unreachable!(),
    }
}

/// Keeps a job at the place of its transactor.
pub(crate) fn keep_job<'p>(jobs: &mut Vec<Option<Job<'p>>>, job: Job<'p>) -> Result<(), AllocError>
    ensures { OnOk result (IsKeptWith jobs.old.items jobs.new.items job.entry) }
{
    let place = job.who() as usize;
    make_places(jobs, place + 1)?;
    jobs[place] = Some(job);
    Ok(())
}

/// Makes places for jobs, up to a number.
fn make_places<'p>(jobs: &mut Vec<Option<Job<'p>>>, count: usize) -> Result<(), AllocError>
    ensures count { OnOk result (count ≤ length jobs.new.items) }
    ensures kept { (t : ℕ) (o : Option turns.TurnSoFar) → slice_get jobs.old.items t ≡ Some o → slice_get jobs.new.items t ≡ Some o }
{
    'places: while jobs.len() < count {
        jobs.push(None)?;
    }
    Ok(())
}

/// Keeps the job of the turn that a receipt opened, if it opened one.
pub(crate) fn keep_begun<'p>(
    jobs: &mut Vec<Option<Job<'p>>>,
    delivered: Delivered<'p>,
) -> Result<(), AllocError>
    ensures { OnOk result (IsKeptBegun jobs.old.items jobs.new.items delivered.entry) }
{
    match delivered {
        Delivered::Began(job) => keep_job(jobs, job),
        Delivered::Dropped
        | Delivered::Fell
        | Delivered::Voided
        | Delivered::Echoed
        | Delivered::Heeded => Ok(()),
    }
}

/// Keeps the job after the step of its turn, if the turn goes on.
pub(crate) fn keep_after<'p>(
    jobs: &mut Vec<Option<Job<'p>>>,
    pending: Pending<'p>,
    reply: Option<Value>,
) -> Result<(), AllocError>
    ensures { OnOk result (IsKeptAfter jobs.old.items jobs.new.items pending.entry reply) }
{
    match reply {
        Some(reply) => keep_job(jobs, pending.resume(reply)),
        None => Ok(()),
    }
}

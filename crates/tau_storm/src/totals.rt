//! What is counted over all ends.
ghost use Rattle.std.specs.Prelude.{◌≡◌, ◌+◌, IfOk};
ghost use Rattle.tau_storm.specs.Inner.Counting.{no_ends, totals_after, totals_with};

use std::alloc::AllocError;

/// What is counted over all ends of a storm.
#[derive(Clone, Copy)]
pub struct Totals {
    /// How many runs there are.
    pub runs: u64,
    /// How many of them are complete.
    pub complete: u64,
    /// How many aren't.
    pub stopped: u64,
    /// How many steps they have together.
    pub steps: u64,
}

impl Totals {
    /// The totals of no ends.
    pub(crate) fn none() -> Totals
        ensures { result ≡ no_ends }
    {
        Totals {
            runs: 0,
            complete: 0,
            stopped: 0,
            steps: 0,
        }
    }

    /// The totals with an end more. Where a count doesn't fit 64 bits, the error is that of want of memory.
    pub(crate) fn after(self, is_complete: bool, steps: u32) -> Result<Totals, AllocError>
        ensures { IfOk result (λ t. t ≡ totals_after self is_complete steps) }
    {
        Ok(Totals {
            runs: added(self.runs, 1)?,
            complete: added(self.complete, u64::from(is_complete))?,
            stopped: added(self.stopped, u64::from(!is_complete))?,
            steps: added(self.steps, u64::from(steps))?,
        })
    }

    /// The totals of these ends and of others. Where a count doesn't fit 64 bits, the error is that of want of memory.
    pub(crate) fn with(self, more: Totals) -> Result<Totals, AllocError>
        ensures { IfOk result (λ t. t ≡ totals_with self more) }
    {
        Ok(Totals {
            runs: added(self.runs, more.runs)?,
            complete: added(self.complete, more.complete)?,
            stopped: added(self.stopped, more.stopped)?,
            steps: added(self.steps, more.steps)?,
        })
    }
}

/// A sum; an error where it doesn't fit 64 bits.
pub(crate) fn added(count: u64, more: u64) -> Result<u64, AllocError>
    ensures { IfOk result (λ s. s ≡ count + more) }
{
    count.checked_add(more).ok_or(AllocError)
}

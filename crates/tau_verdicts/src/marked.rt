//! What was heard, with notes of present points.
ghost use Rattle.std.specs.Prelude.{◌≡◌, [], IfOk, length};
ghost use Rattle.tau_trace.specs.declared.opening.Opening.{Opening};
ghost use Rattle.tau_trace.specs.Known.{IsSound};
ghost use Rattle.tau_knowledge.specs.Knowing.{opened};
ghost use Rattle.tau_verdicts.specs.Kept.{KnowsMarked};

use std::alloc::{AllocError, Global};
use tau_heard::Hearing;
use tau_points::Point;

/// What the transactors and messages of a run have heard, and of each transactor whether its present point is doomed, and which
/// points have taken that (docs/definitions.md, "Clean"), and whether it was found free there. Where nothing is kept of a transactor, its
/// point isn't doomed and has no takers, and it wasn't found free.
#[derive(Drop)]
pub struct MarkedHearing {
    /// What was heard.
    pub hearing: Hearing,
    /// Whether the present point of a transactor is doomed: something in its past may have fallen.
    pub doomed: Vec<bool>,
    /// The points that have taken the present point of a transactor. Some may be left, or may not have taken it.
    pub takers: Vec<Vec<Point>>,
    /// Whether a transactor was found free at its present point, which it is then until it leaves that.
    pub free: Vec<bool>,
}

impl MarkedHearing {
    /// What is kept before the first step, of so many starts and posts. The error is want of memory.
    pub fn begin(alloc: Global, starts: usize, posts: usize) -> Result<MarkedHearing, AllocError>
        ensures { IfOk result (λ h. (o : Opening) → IsSound o → length o.names ≡ starts → length o.targets ≡ posts → KnowsMarked h (opened o)) }
    {
        let hearing = Hearing::begin(alloc, starts, posts)?;
        Ok(MarkedHearing {
            hearing,
            doomed: no_flags(alloc),
            takers: no_takers(alloc),
            free: no_flags(alloc),
        })
    }
}

/// No flag.
fn no_flags(alloc: Global) -> Vec<bool>
    ensures { result.items ≡ [] }
{
    Vec::new(alloc)
}

/// No takers.
fn no_takers(alloc: Global) -> Vec<Vec<Point>>
    ensures { result.items ≡ [] }
{
    Vec::new(alloc)
}

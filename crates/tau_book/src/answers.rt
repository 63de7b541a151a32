//! What a book answers.
use tau_eval::{Job, Pending};

/// What a worker is to do next (docs/rules.md, "Choice of a worker").
#[derive(Drop)]
pub enum Next<'p> {
    /// To evaluate this job up to its next effect, and to bring that.
    Work(Job<'p>),
    /// To ask again: a step was appended.
    Stepped,
    /// To wait until a step is appended or a job comes back: there is nothing to do now, and so many turns are open.
    Idle { out: u32 },
    /// To end: the trace is complete.
    Complete,
    /// To end: the trace isn't complete and has as many steps as the limit.
    Stopped,
}

/// What came of an effect that a worker brought (docs/rules.md, "Choice of a worker").
#[derive(Drop)]
pub enum Told<'p> {
    /// Its step was appended.
    Stepped,
    /// A due step of the script was appended first, and the effect comes back.
    Later(Pending<'p>),
    /// The job wasn't that of the open turn; that one has joined the hand.
    Redone,
    /// The turn isn't open: the step at this place ended it, or, at the length of the trace, no Take stands at the job's place.
    Stale { ended_by: u32 },
    /// The trace has as many steps as the limit.
    Stopped,
}

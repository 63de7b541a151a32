//! What a call that makes a step came to.

/// What a call came to.
#[derive(Clone, Copy)]
pub(crate) enum Answer {
    /// A step was made.
    Made,
    /// The job isn't that of the open turn, and another one was handed out.
    Redone,
    /// The message left at this step.
    NotInFlight { ended_by: u32 },
    /// The receiver is in the turn from this place.
    Busy { turn: u32 },
    /// The turn ended at this step.
    Stale { ended_by: u32 },
    /// The transactor ended at this step.
    Ended { place: u32 },
    /// There is no such transactor, message or job, the run has as many steps as it may have, or its version has no such step.
    Nothing,
}

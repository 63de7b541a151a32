//! What is kept of a run.
use crate::letter::Letter;
use crate::own::Own;
use std::alloc::Global;
use tau_versions::logs::Log;

/// What the transactors and messages of a run have heard: of each transactor its log, which all share, and of each transactor
/// and each message in flight the numbers of the versions that it has heard of (docs/definitions.md, "Heard").
#[derive(Drop)]
pub struct Hearing {
    /// The log of each transactor.
    pub logs: Vec<Log>,
    /// What is kept of each transactor.
    pub own: Vec<Own>,
    /// What is kept of each message; nothing of one that isn't in flight.
    pub letters: Vec<Option<Letter>>,
    /// How many falling steps there are.
    pub falls: u32,
    pub(crate) alloc: Global,
}

//! What a picture shows.

use crate::looks::kinds::{EndLook, MarkLook, RowLook, StateLook};
use crate::timelines::State;

/// A state that is seen, with its look.
#[derive(Clone, Copy)]
pub struct Seen {
    pub state: State,
    pub look: StateLook,
}

/// What is shown of a step: the look of its mark and of its row, whether it is undone, and its note.
#[derive(Drop)]
pub struct StepLook {
    pub mark: MarkLook,
    pub row: RowLook,
    pub undone: bool,
    pub note: Vec<u8>,
}

/// What may be kept of a transactor: its look, and the text that says it behind the name of the transactor.
#[derive(Drop)]
pub struct Ending {
    pub look: EndLook,
    pub text: Vec<u8>,
}

/// What a picture shows of a run (docs/formats.md, "Pictures"): for each lane, by rank, the states that are seen, by time; the drawn
/// steps, by place; and what may be kept of the transactor of each lane, by rank.
#[derive(Drop)]
pub struct Looks {
    pub states: Vec<Vec<Seen>>,
    pub steps: Vec<StepLook>,
    pub ends: Vec<Ending>,
}

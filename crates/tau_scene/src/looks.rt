//! What a picture of a run shows of its states, its steps and its ends (docs/formats.md, "Pictures").

mod kinds;
mod looks;

pub use kinds::{EndLook, MarkLook, RowLook, StateLook};
pub use looks::{Ending, Looks, Seen, StepLook};

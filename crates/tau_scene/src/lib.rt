//! What a picture of a run shows: its states, the looks of its steps, their causes, and the notes (docs/formats.md, "Pictures").
#![tactic(auto)]

pub mod causes;
pub mod looks;
pub mod notes;
pub mod timelines;
pub mod words;

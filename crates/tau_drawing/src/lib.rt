//! The parts of a picture of a run as they are drawn: lanes, marks, messages, and states (docs/formats.md, "Pictures").
#![tactic(auto)]

pub mod lanes;
pub mod marks;
pub mod messages;
pub mod states;

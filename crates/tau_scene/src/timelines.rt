//! The states that transactors of a picture pass through (docs/formats.md, "Pictures").

mod states;

pub use states::{State, states_in};

//! The strip, the states and the ends of a picture of a run (docs/formats.md, "Pictures").

mod crossings;
mod ends;
mod kinds;
mod states;
mod strip;
mod ticks;

pub use ends::put_ends;
pub use states::{put_states, state_foot, state_top};
pub use strip::put_strip;

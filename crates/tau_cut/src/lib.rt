//! The greatest set of checkpoints that could all be kept if everything else were lost (docs/definitions.md, "Consistent").
#![tactic(auto)]

mod cut;
mod keeping;
mod kept;
mod laws;
mod marking;
mod parts;
mod state_lines;
mod states;
mod text;

pub use cut::{Cut, Marked};
pub use kept::kept_places;
pub use laws::{cut_texts_are_unique, cuts_are_unique};
pub use marking::greatest;
pub use state_lines::put_states;
pub use states::{EndStates, Kept, KeptStates, end_states};
pub use text::cut_text;

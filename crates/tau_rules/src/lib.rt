//! The system of all transactors: the run of a program, to which each call appends exactly the step that it names and that fits, or
//! refuses for the reason that it tells and changes nothing (docs/rules.md, "Steps"). Beside the run it keeps what the next step
//! needs: states, the record of each open turn, the values of messages, and what was heard.
#![tactic(auto)]

mod acting;
mod answers;
mod appending;
mod delivering;
mod errors;
mod failing;
mod knowing;
mod laws;
mod reading;
mod records;
mod system;
mod turns;

pub use answers::{Acted, Delivered, Standing};
pub use errors::{ActError, DeliverError, FailError, LoseError, RepeatError};
pub use laws::known_jobs_are_open;
pub use system::System;

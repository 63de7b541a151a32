//! What the transactors and messages of a run have heard, as numbers of versions over logs that all share.
#![tactic(auto)]

pub use change::{ActorChange, BoxedNewborn, HearingChange, LogChange, Newborn, TurnChange};
pub use hearing::Hearing;
pub use letter::{Letter, Sender};
pub use own::Own;

mod along;
mod applying;
mod change;
mod choosing;
mod deciding;
mod heard;
mod hearing;
mod kinds;
mod knowing;
pub mod laws;
mod letter;
mod making;
mod opening;
mod own;
mod preparing;
mod reading;
mod room;

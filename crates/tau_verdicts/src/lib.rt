//! What the transactors and messages of a run have heard, with notes of the present points whose past may hold something fallen:
//! doomed points. A receipt of which none is doomed is a Take without a search (docs/rules.md, "Verdict"). Noted, too, is who was found
//! free: it is until it leaves its point, so that is searched for once a point (docs/rules.md, "Free").
#![tactic(auto)]

pub use change::MarkedChange;
pub use marked::MarkedHearing;

mod applying;
mod change;
mod dooming;
mod freedom;
mod judging;
mod kinds;
mod knowing;
mod latest;
mod marked;
mod noting;
mod preparing;
mod spreading;
mod turns;

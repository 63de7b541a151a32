//! Programs with more faults in their scripts, and the ends of a storm: the serial runs of a program with every placement of so many
//! faults, in order (docs/rules.md, "Storm").
#![tactic(auto)]

mod faults;
mod laws;
mod placing;
mod setting;
mod visits;
mod walk;

pub use laws::{
    ends_are_listed, ends_are_runs, ends_are_unique, faults_come_where_they_are_put,
    programs_tell_their_faults,
};
pub use setting::{FaultCounts, Setting};
pub use tau_book::Ran;
pub use visits::Visit;
pub use walk::visit_ends;

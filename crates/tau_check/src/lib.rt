//! Whether a trace is legal (docs/definitions.md, "Fitting and legal steps").
#![tactic(auto)]

mod checker;
mod checking;
mod ends;
mod families;
mod following;
mod jobs;
mod laws;
mod reading;
mod same;

pub use checking::{Legality, check};
pub use following::follow;
pub use laws::one_step_of_a_family_fits;
pub use tau_verdicts::MarkedHearing;

//! Fitting, legal and complete traces: which step may follow the steps before it (docs/definitions.md, "Fitting and legal
//! steps").
#![tactic(auto)]

mod cell;
mod choices;
mod forged_checkpoint;
mod laws;
mod rolled_back_source;
mod rules;
mod volatile_source;

pub use cell::cell_is_saved;
pub use choices::{Choice, asks_freedom, chosen};
pub use forged_checkpoint::forged_checkpoint_is_unsafe;
pub use laws::{
    complete_where_no_step_is_legal, empty_traces_are_complete, fitting_is_local,
    fitting_traces_are_safe, fitting_traces_grow, legal_traces_are_safe, legal_traces_grow,
    legality_is_local,
};
pub use rolled_back_source::rolled_back_source_is_dropped;
pub use rules::{fitting_traces_keep_the_rules, messages_have_receivers};
pub use volatile_source::{unearned_checkpoint_may_be_safe, volatile_source_is_held};

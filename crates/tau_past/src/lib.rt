//! The causal past of a run (docs/definitions.md).
#![tactic(auto)]

mod auditing;
mod calls;
mod carrying;
mod findings;
mod found;
mod index;
mod known_laws;
mod laws;
mod listing;
mod local_laws;
mod made;
mod noting;
mod search;

pub use auditing::audit;
pub use calls::{carried, past};
pub use carrying::{Carrying, send_of};
pub use findings::Audit;
pub use index::Index;
pub use known_laws::{
    AnyPlaces, bounds_are_unique, bounds_tell_histories, carried_points_were_touched,
    checkpoints_fix_their_past, checkpoints_were_stabilized, closed_sets_hold_earlier_steps,
    closed_sets_hold_what_was_heard, heard_grows, heard_step_by_step,
    messages_hear_with_their_sender, pending_needs_a_turn, pending_points_were_touched,
    pending_step_by_step, sent_points_were_touched, steps_change_their_bound_alone,
    turns_step_by_step, unions_are_closed, unions_have_the_greater_bound, what_is_heard_has_bounds,
    what_is_heard_is_closed, what_is_heard_stands_before,
};
pub use laws::{
    nothing_heard_at_first, opening_points_stand_alone, posts_carry_nothing, rules_make_safe,
    without_falls_all_is_taken,
};
pub use local_laws::decisions_are_local;
pub use made::Made;

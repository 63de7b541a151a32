//! The plain views of a run's transactors and of its messages in flight, kept step by step, and made anew of a system's run
//! (docs/rules.md, "Views"; docs/definitions.md, "View of what was heard").
#![tactic(auto)]

mod after;
mod anew;
mod applying;
mod judging;
mod kinds;
mod knowing;
mod laws;
mod of_system;
mod opening;
mod preparing;
mod reading;
mod views;

pub use anew::views_of;
pub use laws::{
    copies_have_their_view, decisions_agree, falls_and_drops_agree, fitting_views_are_settled,
    freedom_agrees, named_points_are_known, posts_have_heard_nothing, starts_open_alone,
    views_are_comparable, views_are_local, views_are_settled, views_have_the_own_history,
    views_step_by_step,
};
pub use of_system::{history_of, message_view, view_of};
pub use views::{ViewChange, Views};

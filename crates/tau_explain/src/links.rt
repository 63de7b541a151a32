//! Chains over the links of a trace, with the places of the steps that make the links (docs/definitions.md, "Chain").

mod dependents;
mod linking;
mod nearest;
mod routes;
mod rows;

pub use routes::{first_chain, shortest_chains};

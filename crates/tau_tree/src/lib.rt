//! Programs: behaviours, start transactors, posts and a failure script (docs/formats.md, "Programs").
#![tactic(auto)]

mod behaviours;
mod bodies;
mod entries;
mod expressions;
mod posts;
mod programs;
mod scopes;
mod soundness;
mod starts;

pub use behaviours::{Behaviour, Behaviours};
pub use entries::{Entry, Failure, Script};
pub use expressions::{Expr, Exprs, Operation as Prim};
pub use posts::{Post, Posts};
pub use programs::Program;
pub use starts::{Start, Starts};

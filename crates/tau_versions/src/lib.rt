//! The versions that each transactor has had, in logs that all share, numbers of those that were heard, and the search over both.
#![tactic(auto)]

pub mod logs;
pub mod numbers;
pub mod roots;
pub mod search;

//! Verdicts on messages and the freedom of transactors, by what their views hold.

mod decide;
mod freedom;
pub mod laws;
mod least;
mod verdict;

pub use decide::{free, free_settled, judge, judge_settled};
pub use freedom::Freedom;
pub use verdict::Verdict;

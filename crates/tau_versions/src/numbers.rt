//! Numbers of transactors, each of which only grows, in a list that is its owner's alone or shared with others.

pub use numbers::Numbers;

mod numbers;
mod raising;

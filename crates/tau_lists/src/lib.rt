//! Lists of items, as contracts see them: one type for the lists of starts, posts, behaviours, script entries, numbers, places,
//! points, marks and words (docs/crates.md).
#![tactic(auto)]

mod items;
mod lists;

pub use items::{Compare, Item};
pub use lists::ItemList;

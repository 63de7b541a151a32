//! Lists of numbers.
use tau_lists::ItemList;

/// A list of numbers.
pub type Numbers = ItemList<u32>;

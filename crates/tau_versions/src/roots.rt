//! What a turn takes along, and what a point takes by a Set, over logs that all share.

pub use roots::Roots;
pub use taking::{Added, adding, fresh, is_marked, is_none, mark};

mod closing;
mod roots;
mod taking;

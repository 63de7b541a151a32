//! Where the parts of a picture of a run stand, and the paths of its messages (docs/formats.md, "Pictures").
#![tactic(auto)]

mod columns;
mod groups;
mod lanes;
mod layout;
pub mod paths;

pub use columns::Column;
pub use lanes::{Lane, lane_at};
pub use layout::{Layout, layout_of};

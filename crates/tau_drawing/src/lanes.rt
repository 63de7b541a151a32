//! The nodes and the lanes of a picture of a run (docs/formats.md, "Pictures").

mod lanes;
mod names;
mod nodes;

pub(crate) use lanes::name_of;
pub use lanes::put_lanes;
pub use names::put_names;
pub use nodes::put_nodes;

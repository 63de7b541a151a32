//! What a resume finds on a disk, and the revival that it writes there (docs/journal.md, "Going on").

mod finding;
mod reading;
mod reviving;

pub use finding::find_legal;
pub use reading::FoundRun;
pub use reviving::{Revived, revive};

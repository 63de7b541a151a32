//! Texts of pictures of runs, in bytes (docs/formats.md, "Pictures").

mod ends;
mod forms;
mod notes;
mod points;
mod states;
mod steps;
mod values;

pub use ends::{put_kept, put_nothing, put_opened};
pub use notes::{put_back, put_ends, put_fell, put_needs, put_saves};
pub use points::{put_number, put_point, put_who};
pub use states::put_state_title;
pub use steps::{put_bare, put_step};
pub use values::put_value;

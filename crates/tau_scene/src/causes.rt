//! The looks of the states and of the steps of a picture, and the causes of steps (docs/formats.md, "Pictures").

mod asking;
mod causes;
mod fallen;
mod grounds;
mod marks;
mod resting;
mod shown;
mod sources;
mod states;

pub use causes::cause_at;
pub use marks::StepMark;
pub use shown::{Shown, show};

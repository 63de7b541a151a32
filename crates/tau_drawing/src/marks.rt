//! The marks and the rows of a picture of a run (docs/formats.md, "Pictures").

mod looks;
mod marks;
mod rows;

pub use marks::put_marks;
pub use rows::put_rows;

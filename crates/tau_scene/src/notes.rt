//! The notes of the steps of a picture, what may be kept of its transactors, and all that it shows (docs/formats.md, "Pictures").

mod endings;
mod keeping;
mod looks;
mod notes;
mod steps;

pub use looks::looks_of;

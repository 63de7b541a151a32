//! The text of an SVG picture: markup, and the shapes that are drawn (docs/formats.md, "Pictures").
#![tactic(auto)]

pub mod markup;
pub mod shapes;

//! Why a step came: the links between points, the shortest chains of them, and the grounds of a decision (docs/rules.md, "Why").
#![tactic(auto)]

mod answers;
mod asking;
mod causes;
pub mod chains;
mod hearing;
pub mod links;
mod texts;

pub use answers::Why;
pub use asking::why;
pub use hearing::heard_at;
pub use texts::{form_of_chained, why_text};

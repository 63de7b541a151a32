//! Values, and the forms that they are written as (docs/formats.md, "Values").
#![tactic(auto)]

mod faults;
mod limits;
mod name_list;
mod number_words;
mod printing;
mod reading;
mod shared;

pub use faults::ValueError;
pub use limits::{BEHAVIOUR_LIMIT, ENTRY_LIMIT, NODE_LIMIT, POST_LIMIT, START_LIMIT, STEP_LIMIT};
pub use name_list::{Names, is_name};
pub use number_words::{count_of, integer_of, word_of_count, word_of_integer};
pub use printing::form_of;
pub use reading::value_of;
pub use shared::{Value, Values, in_bounds, levels, names_below, parts};

//! Programs read from forms, and the texts that they are printed as (docs/formats.md, "Programs").
#![tactic(auto)]

mod build;
mod builder;
mod checking;
mod faults;
mod keywords;
mod laws;
mod limits;
mod outline;
mod printing;
mod programs;
mod reading;
mod rows;
mod scopes;
mod tables;
mod tops;
mod values;
mod wanted;
mod writing;

pub use builder::ProgramBuilder;
pub use faults::ProgramError;
pub use laws::forms_mean_one_program;
pub use outline::Outline;
pub use printing::{forms_of, put_program};
pub use reading::program_of;
pub use values::{add_count, add_name, add_value, put_truth};

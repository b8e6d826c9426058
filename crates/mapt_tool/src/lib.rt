//! The commands of the program, and their top call.
#![tactic(auto)]

mod asked;
mod carrying;
mod equal;
mod laws;
mod plan;
mod printed;
mod reading;
mod refusal;
mod replay;
mod status;
mod tool;
mod words;

pub use equal::equal_values_are_the_same;
pub use laws::commands_have_at_most_one_outcome;
pub use status::Status;
pub use tool::{mapt, mapt_plain};

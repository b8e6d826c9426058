//! Rows: a line names a call, its arguments and its answer, and the program that reads it makes the call and compares.
#![tactic(auto)]

mod long;
mod run;
mod said;
mod words;

pub use run::{Calls, compare_rows};
pub use said::Said;
pub use words::{RowFault, Words};

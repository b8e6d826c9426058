//! The trace of a replay. So far: the laws of what a legal trace shows, one for each direction in which packets cross.
#![tactic(auto)]

pub mod laws;
pub mod memory;

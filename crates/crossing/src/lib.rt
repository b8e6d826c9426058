//! A packet that crosses the domain: what an edge replaces in it, and in what it then differs when it arrives.
#![tactic(auto)]

mod laws;

pub use laws::{packets_come_back_with_the_named_changes, pieces_come_back_as_the_whole_payload};

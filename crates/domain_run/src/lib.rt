//! The machines of a domain, and what one worker does with a script.
#![tactic(auto)]

mod at_edge;
mod at_relay;
mod journey;
mod machines;
mod packet;
mod record;
mod replay;
mod start;
mod told;

pub use machines::Machines;
pub use replay::{Replayed, replay_kept, replay_one};

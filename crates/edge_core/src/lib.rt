//! The state of an edge, and of a stripe of the relay, with the history of the steps that led to it: every
//! answer in the history is the machine's, and replaying it gives the state.
#![tactic(auto)]

mod edge;
mod newer;
mod noted;
mod stripe;

pub use edge::EdgeState;
pub use nat_model::StripeEntry;
pub use stripe::StripeState;

//! The journeys of records through the domain: where a packet stands, and the node that its destination names.
#![tactic(auto)]

mod equal;
mod journey;
mod laws;
mod made;
mod route;
mod stand;

pub use equal::equal_values_are_the_same;
pub use journey::{MakesHops, walk};
pub use laws::{
    an_edge_sends_what_goes_less_far, no_hop_is_deeper_than_seven, no_hop_sends_further,
    nothing_is_freed_to_an_error_by_one_worker, the_journeys_of_a_trace_are_one,
    the_relay_sends_what_goes_less_far, what_one_worker_does_is_the_one_thread_trace,
    what_one_worker_keeps_is_what_its_trace_says,
};
pub use made::{MadeHop, MadeHops, Taking};
pub use route::{first_stand, next_stand, node_of};
pub use stand::Stand;

//! The NAPT44 of a customer edge as a plain machine over lists: bindings of inside ends to outside ports,
//! their timers, and the fragments that wait (RFC 4787, RFC 5382, RFC 5508, RFC 6146).
#![tactic(auto)]

mod answer;
mod ask;
mod binding;
mod claim;
mod entry;
mod equal;
mod fragment;
mod kind;
mod laws;
mod machine;
mod parcels;
mod remote;
mod stay;
mod steps;
mod stripe;
mod timer;

pub use answer::Answer;
pub use ask::{Ask, End4, Far, Part};
pub use binding::{Binding, Bindings};
pub use entry::{Entry, Mark, Who};
pub use equal::equal_values_are_the_same;
pub use laws::{
    a_flow_finds_no_port_exactly_where_all_are_bound, a_holder_and_a_destination_are_tested_first,
    each_ask_has_an_answer_of_its_kind, no_port_is_left_exactly_where_all_are_bound,
    other_protocols_keep_their_bindings, two_bindings_never_share_a_port,
    what_comes_in_goes_to_the_binding_with_its_port,
};
pub use machine::Machine;
pub use parcels::{a_fragment_is_freed_once, a_freed_parcel_is_a_fragment_that_waited};
pub use stripe::StripeEntry;

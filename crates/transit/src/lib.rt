//! A packet between two versions of IP: translated, and sent, cut, or too big or old to be sent.
#![tactic(auto)]

mod laws;
mod passage;
mod to_ipv4;
mod to_ipv6;

pub use laws::{
    a_packet_has_one_passage, a_packet_is_cut_in_one_way,
    translators_take_the_messages_that_a_node_takes,
    translators_take_the_segments_that_a_node_takes,
};
pub use passage::Passage;
pub use to_ipv4::passage64;
pub use to_ipv6::passage46;

//! A customer edge's part of a hop: what it asks its machine about a packet, and what it sends by the machine's answer
//! (RFC 7599, section 8; RFC 7915).
#![tactic(auto)]

mod ask;
mod equal;
mod hop;
mod inward;
mod laws;
mod outward;
mod taken;
mod way;

pub use equal::equal_values_are_the_same;
pub use hop::emit;
pub use hops::{Causes, Hop, Out, Outs};
pub use laws::{an_edge_has_one_hop, each_packet_asks_the_edge_or_is_dropped};
pub use taken::{Taken, ask_of};
pub use way::{EdgeParams, Node, Way};

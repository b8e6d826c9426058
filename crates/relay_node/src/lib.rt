//! The relay: one hop of a packet, from the access network or from IPv4, under the rules of one book (RFC 7599, section 8).
#![tactic(auto)]

mod asked;
mod equal;
mod from_access;
mod from_ipv4;
mod hop;
mod laws;
mod params;
mod relay;
mod side;
mod taken;

pub use asked::stripe_of;
pub use equal::equal_values_are_the_same;
pub use hop::relay_hop;
pub use laws::{each_packet_asks_the_relay_or_is_dropped, the_relay_has_one_hop};
pub use params::RelayParams;
pub use relay::Relay;
pub use taken::{Taken, frag_of};

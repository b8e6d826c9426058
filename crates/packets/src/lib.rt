//! IPv4 and IPv6 packets as a node takes them: one of the causes for which every node drops a packet, or what the packet
//! carries, read once.
#![tactic(auto)]

mod asked;
mod equal;
mod found;
mod laws;
mod packet4;
mod packet6;

pub use asked::{Extent, Flow};
pub use equal::equal_values_are_the_same;
pub use found::Found;
pub use laws::{octets_are_one_packet_or_have_one_cause, one_thing_is_found_in_octets};
pub use packet4::{Content4, Packet4};
pub use packet6::{Content6, Packet6};

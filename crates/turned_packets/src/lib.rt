//! IPv4 packets that an edge turns, because their destination is the edge's own address (RFC 4787, section 6; RFC 5508,
//! section 5): as they are sent, with another source, and as they are received, with another destination.
#![tactic(auto)]

mod embedded;
mod ends;
mod laws;
mod layout;
mod segment;
mod turned;

pub use laws::{
    a_right_embedded_sum_stays_right_when_turned, a_right_sum_stays_right_when_turned,
    a_turned_embedded_packet_is_read_again, a_turned_icmp_sum_is_right,
};
pub use turned::{turned_in, turned_out};

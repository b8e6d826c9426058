//! ICMP messages translated between IPv4 and IPv6, with the packets that errors embed (RFC 7915, sections 4.2,
//! 4.3, 5.2 and 5.3).
#![tactic(auto)]

mod inner;
mod laws;
mod mtu;
mod passing;
mod to_icmp4;
mod to_icmp6;

pub use l4_headers::Ends;
pub use laws::{
    a_right_embedded_sum_stays_right_when_translated, a_translated_embedded_packet_is_read_again,
    a_translated_icmpv4_sum_is_right, a_translated_icmpv6_sum_is_right,
};
pub use passing::Passing;
pub use to_icmp4::{error64, icmp64, query64, with_message64};
pub use to_icmp6::{error46, icmp46, query46, with_message46};

//! Headers and whole packets translated from IPv4 to IPv6 (RFC 7915, section 4).
#![tactic(auto)]

mod head;
mod laws;
mod whole;

pub use head::head46;
pub use laws::a_right_sum_stays_right_over_ipv6;
pub use whole::{packet46, whole46};

//! Headers and whole packets translated from IPv6 to IPv4 (RFC 7915, section 5).
#![tactic(auto)]

mod head;
mod laws;
mod whole;

pub use head::head64;
pub use laws::a_right_sum_stays_right_over_ipv4;
pub use whole::{packet64, whole64};

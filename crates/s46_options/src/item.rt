use crate::Subs;
use octets::{Bytes, Prefix4, Prefix6};

/// An option inside of a container.
#[derive(Debug, Drop)]
pub enum Item {
    /// S46_RULE (RFC 7598, section 4.1).
    Rule {
        /// Whether it is a forwarding mapping rule too.
        flag: bool,
        /// The number of EA bits, at most 48 in a container.
        ea: u8,
        /// The IPv4 prefix.
        prefix4: Prefix4,
        /// The IPv6 prefix.
        prefix6: Prefix6,
        /// The options inside of it.
        subs: Subs,
    },
    /// S46_DMR (RFC 7598, section 4.3): the prefix of the default mapping rule.
    Dmr(Prefix6),
    /// Any other option: its code and its octets.
    Other(u16, Bytes),
}

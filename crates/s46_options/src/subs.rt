use octets::{Bytes, List};

/// An option inside of a rule.
#[derive(Debug, Drop)]
pub enum Sub {
    /// S46_PORTPARAMS (RFC 7598, section 4.5).
    Params {
        /// The PSID offset in bits, at most 15 in a container.
        offset: u8,
        /// The length of the PSID in bits, at most 16 in a container.
        psid_len: u8,
        /// The PSID as a number, of so many bits in a container.
        psid: u16,
    },
    /// Any other option: its code and its octets.
    Other(u16, Bytes),
}

/// The options inside of a rule, in their order.
pub type Subs = List<Sub>;

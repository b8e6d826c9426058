use octets::{Bytes, Parcels};

/// What becomes of a packet that a node translates.
#[derive(Debug, Drop)]
pub enum Passage {
    /// It is sent as this packet.
    Sent(Bytes),
    /// It is sent in these pieces, in their order, each with place 0.
    Cut(Parcels),
    /// It is dropped: its TTL or hop limit is 0 or 1.
    Spent,
    /// It is dropped: its translation is over the MTU, and may not be cut.
    TooBig,
}

use octets::{Addr4, Mtus};

/// Where an edge takes a packet from.
#[derive(Clone, Copy, Debug, PartialEq, Eq, Hash)]
pub enum Way {
    /// The edge's LAN.
    Lan,
    /// The access network.
    Access,
    /// The edge itself, which turned the packet.
    Turned,
}

/// What an edge goes by beside its machine: its own address on the LAN, and the MTUs of both sides.
#[derive(Clone, Copy, Debug)]
pub struct EdgeParams {
    pub lan: Addr4,
    pub mtus: Mtus,
}

/// An edge as it emits a packet: what it goes by, and the identification of packets that have none of their own.
#[derive(Clone, Copy, Debug)]
pub struct Node {
    pub params: EdgeParams,
    pub id: u16,
}

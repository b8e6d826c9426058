//! What one hop of a packet comes to.

use octets::{Bytes, Cause, List};

/// A packet that a hop sends, and where to.
#[derive(Debug, Drop)]
pub enum Out {
    /// Out of the domain, onto the edge's LAN.
    Lan(Bytes),
    /// Onto the access network.
    Access(Bytes),
    /// Out of the domain, into the core.
    Core(Bytes),
    /// To the same node once more.
    Turn(Bytes),
}

/// Packets in the order in which a hop sends them.
pub type Outs = List<Out>;

/// Causes for which a hop dropped packets, in their order.
pub type Causes = List<Cause>;

/// What one hop of a packet comes to: the packets that it sends, and a cause for each that it drops.
#[derive(Debug, Drop)]
pub struct Hop {
    pub outs: Outs,
    pub drops: Causes,
}

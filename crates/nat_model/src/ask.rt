ghost use Rattle.std.specs.Prelude.{◌≡◌, IsOk, IfOk};
ghost use Rattle.nat_model.specs.Copied.{PartHasNoOctets, AskHasNoOctets};

use frag_table::FragKey;
use octets::{Addr4, Addr6, Bytes, NoMemory, Proto};
use std::alloc::Global;

/// An IPv4 address and a port: one end of a flow. The port of an ICMP query is its identifier.
#[derive(Clone, Copy, Debug, PartialEq, Eq, Hash)]
pub struct End4 {
    pub addr: Addr4,
    pub port: u16,
}

/// Where an inward packet comes from and goes to. `src` and `dst` are the packet's own addresses. `peer` is the
/// flow's remote address: of an error that of the embedded packet, and otherwise `src`. `port` is the flow's
/// remote port, and 0 for a later fragment.
#[derive(Clone, Copy, Debug, PartialEq, Eq, Hash)]
pub enum Far {
    /// From the access network.
    Six {
        dst: Addr6,
        src: Addr6,
        peer: Addr6,
        port: u16,
    },
    /// From the same edge, which turned the packet.
    Turned {
        dst: Addr4,
        src: Addr4,
        peer: Addr4,
        port: u16,
    },
}

/// Whether a packet is whole, the first fragment of one, or a later fragment with its octets as the node
/// took it.
#[derive(Debug, Drop)]
pub enum Part {
    Whole,
    First(FragKey),
    Later(FragKey, Bytes),
}

/// What an edge asks its machine about a packet, or about a port that is to be kept.
///
/// `fault` says that the packet is an ICMP error. Then the ends, ports and protocol are those of the flow that
/// the embedded packet belongs to. Ports are 0 for a later fragment. `flags` is the flags octet of TCP.
#[derive(Debug, Drop)]
pub enum Ask {
    /// A packet from the LAN: its inside end and its far end.
    Outward {
        fault: bool,
        proto: Proto,
        near: End4,
        far: End4,
        flags: u8,
        part: Part,
    },
    /// A packet to the edge: the outside port that it goes to, and where it comes from.
    Inward {
        fault: bool,
        proto: Proto,
        port: u16,
        far: Far,
        flags: u8,
        part: Part,
    },
    /// A port that is to be kept for a host's own port, this one where it is free, until this time in
    /// microseconds.
    Keep {
        proto: Proto,
        host: Addr4,
        host_port: u16,
        port: u16,
        until: u64,
    },
}

impl Part {
    /// The same part once more. A part without octets takes no memory.
    pub(crate) fn copy(&self, alloc: Global) -> Result<Part, NoMemory>
        ensures same { IfOk result (λ copied. copied ≡ self.now) }
        ensures without_octets { PartHasNoOctets self.now → IsOk result }
    {
        match self {
            Part::Whole => Ok(Part::Whole),
            Part::First(key) => Ok(Part::First(*key)),
            Part::Later(key, octets) => Ok(Part::Later(*key, octets.copy(alloc)?)),
        }
    }
}

impl Ask {
    /// The same ask once more. An ask without octets takes no memory.
    pub fn copy(&self, alloc: Global) -> Result<Ask, NoMemory>
        ensures same { IfOk result (λ copied. copied ≡ self.now) }
        ensures without_octets { AskHasNoOctets self.now → IsOk result }
    {
        match self {
            Ask::Outward {
                fault,
                proto,
                near,
                far,
                flags,
                part,
            } => Ok(Ask::Outward {
                fault: *fault,
                proto: *proto,
                near: *near,
                far: *far,
                flags: *flags,
                part: part.copy(alloc)?,
            }),
            Ask::Inward {
                fault,
                proto,
                port,
                far,
                flags,
                part,
            } => Ok(Ask::Inward {
                fault: *fault,
                proto: *proto,
                port: *port,
                far: *far,
                flags: *flags,
                part: part.copy(alloc)?,
            }),
            Ask::Keep {
                proto,
                host,
                host_port,
                port,
                until,
            } => Ok(Ask::Keep {
                proto: *proto,
                host: *host,
                host_port: *host_port,
                port: *port,
                until: *until,
            }),
        }
    }
}

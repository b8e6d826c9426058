//! What a node asks about a packet: its flow, and which part of a packet it is.
ghost use Rattle.std.specs.Prelude.{◌≡◌};
ghost use Rattle.packets.specs.Asked.{flow_of_query, extent_of};

use l4_headers::Ports;
use octets::Proto;

/// The flow that a packet belongs to.
#[derive(Clone, Copy, Debug, PartialEq, Eq, Hash)]
pub struct Flow {
    /// The packet is an ICMP error. Protocol and ports are then those of the packet that it embeds.
    pub fault: bool,
    pub proto: Proto,
    /// The packet's ports. Both are the identifier of a query, and 0 in a later fragment.
    pub ports: Ports,
    /// The flags octet of a whole or first packet of TCP, and else 0.
    pub flags: u8,
}

/// Which part of a packet this is.
#[derive(Clone, Copy, Debug, PartialEq, Eq, Hash)]
pub enum Extent {
    Whole,
    First,
    Later,
}

impl Flow {
    /// The flow of a query with these four octets behind its sum: its identifier stands in the first two.
    pub(crate) fn of_query(rest: u32) -> Flow
        ensures { result ≡ flow_of_query rest }
    {
        let identifier = (rest >> 16) as u16;
        Flow {
            fault: false,
            proto: Proto::Icmp,
            ports: Ports {
                src: identifier,
                dst: identifier,
            },
            flags: 0,
        }
    }
}

impl Extent {
    /// By the fragment's offset, and whether more fragments follow.
    pub(crate) fn of(offset: u16, more: bool) -> Extent
        ensures { result ≡ extent_of offset more }
    {
        if offset != 0 {
            Extent::Later
        } else if more {
            Extent::First
        } else {
            Extent::Whole
        }
    }
}

//! The two ends of a packet, and what stands there instead once an edge turned the packet.

ghost use Rattle.std.specs.Prelude.{◌≡◌};
ghost use Rattle.turned_packets.specs.Ends.{other_end, address_at, port_at, with_address, with_port, embedded_end};
ghost use Rattle.turned_packets.specs.Inside.{end_in, new_end_in};

use ip4_packet::Head4;
use l4_headers::Ports;
use octets::Addr4;

/// An end of a packet.
#[derive(Clone, Copy)]
pub(crate) enum End {
    Source,
    Destination,
}

/// The address and the port that come to stand at an end.
#[derive(Clone, Copy)]
pub(crate) struct NewEnd {
    pub end: End,
    pub addr: Addr4,
    pub port: u16,
}

impl End {
    /// The other end.
    fn other(self) -> End
        ensures { end_in result ≡ other_end (end_in self) }
    {
        match self {
            End::Source => End::Destination,
            End::Destination => End::Source,
        }
    }

    /// The address there.
    pub(crate) fn address_at(self, head: &Head4) -> Addr4
        ensures { result ≡ address_at (end_in self) head.now }
    {
        match self {
            End::Source => head.src,
            End::Destination => head.dst,
        }
    }

    /// The port there.
    pub(crate) fn port_at(self, ports: Ports) -> u16
        ensures { result ≡ port_at (end_in self) ports }
    {
        match self {
            End::Source => ports.src,
            End::Destination => ports.dst,
        }
    }

    /// The header with another address there.
    pub(crate) fn with_address(self, addr: Addr4, head: &Head4) -> Head4
        ensures { result ≡ with_address (end_in self) addr head.now }
    {
        match self {
            End::Source => Head4 { src: addr, ..*head },
            End::Destination => Head4 { dst: addr, ..*head },
        }
    }

    /// The ports with another one there.
    pub(crate) fn with_port(self, port: u16, ports: Ports) -> Ports
        ensures { result ≡ with_port (end_in self) port ports }
    {
        match self {
            End::Source => Ports { src: port, ..ports },
            End::Destination => Ports { dst: port, ..ports },
        }
    }
}

impl NewEnd {
    /// The same end of a flow in the packet that an error embeds, which went the other way.
    pub(crate) fn embedded(&self) -> NewEnd
        ensures { new_end_in result ≡ embedded_end (new_end_in self.now) }
    {
        NewEnd {
            end: self.end.other(),
            ..*self
        }
    }
}

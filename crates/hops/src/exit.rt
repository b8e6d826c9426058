ghost use Rattle.std.specs.Prelude.{◌≡◌};
ghost use Rattle.hops.specs.Hop.{leaving};

use crate::hop::Out;
use octets::Bytes;

/// Where a node sends a packet.
#[derive(Clone, Copy, Debug, PartialEq, Eq, Hash)]
pub enum Exit {
    /// Out of the domain, onto the edge's LAN.
    ToLan,
    /// Onto the access network.
    ToAccess,
    /// Out of the domain, into the core.
    ToCore,
    /// To the same node once more.
    ToItself,
}

impl Exit {
    /// The packet as it leaves.
    pub fn leaving(self, octets: Bytes) -> Out
        ensures { result ≡ leaving self octets }
    {
        match self {
            Exit::ToLan => Out::Lan(octets),
            Exit::ToAccess => Out::Access(octets),
            Exit::ToCore => Out::Core(octets),
            Exit::ToItself => Out::Turn(octets),
        }
    }
}

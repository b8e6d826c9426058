ghost use Rattle.std.specs.Prelude.{◌≡◌, ◌≤◌, IfOk, Some, length, true};
ghost use Rattle.l4_headers.specs.Transport.{IsBadTransport, l4_of};
ghost use Rattle.one_edge.specs.Edge.{edge_in};
ghost use Rattle.one_edge.specs.Served.{IsServed};
ghost use Rattle.one_edge.specs.Crossed.{IsCrossed};

use crate::OneEdge;
use crate::taken::Taken;
use l4_headers::{Ends, Segment, accepted_l4};
use octets::{Bytes, NoMemory, Proto};
use std::alloc::Global;
use xlat46::{head46, packet46};
use xlat64::packet64;

/// How many identifications there are.
const IDENTIFICATIONS: usize = 1 << 16;

/// A packet on both networks.
#[derive(Debug, Drop)]
pub(crate) struct Crossed {
    pub(crate) access: Bytes,
    pub(crate) core: Bytes,
}

/// What a whole packet of TCP or UDP carries.
fn whole_segment(proto: Proto, payload: &[u8]) -> Segment<'_>
    requires { IsBadTransport proto payload.now true → ⊥ }
    ensures proto { result.proto ≡ proto }
    ensures payload { result.payload.now ≡ payload.now }
    ensures header { result.header ≡ Some (l4_of proto payload.now) }
{
    Segment {
        proto,
        header: Some(accepted_l4(proto, payload)),
        payload,
    }
}

impl OneEdge {
    /// The packet of the record of this number, as it is on the access network and in the core. In the core it is what the
    /// relay makes of the packet on the access network.
    pub(crate) fn crossed(
        &self,
        alloc: Global,
        octets: &[u8],
        taken: &Taken,
        number: usize,
    ) -> Result<Crossed, NoMemory>
        requires { IsServed (edge_in self.now) taken.now octets.now }
        ensures crossed { IfOk result (λ made. IsCrossed (edge_in self.now) number octets.now made.access made.core) }
        ensures short { IfOk result (λ made. (length made.access ≤ 9000) × (length made.core ≤ 9000)) }
    {
        let own6 = self.own6();
        let far6 = self.far6(taken.head.dst);
        let ports = self.ports(taken.ports);
        let inside = taken.head.payload(octets);
        let out = Ends::between(own6, far6, Some(ports));
        let segment = whole_segment(taken.proto, inside);
        let access = packet46(alloc, &taken.head, &segment, &out)?;
        let head = head46(&taken.head, own6, far6);
        let carried = head.payload(access.as_slice());
        let id = (number % IDENTIFICATIONS) as u16;
        let onward = Ends::between(self.own4(), taken.head.dst, Some(ports));
        let translated = whole_segment(taken.proto, carried);
        let core = packet64(alloc, &head, &translated, &onward, id)?;
        Ok(Crossed { access, core })
    }
}

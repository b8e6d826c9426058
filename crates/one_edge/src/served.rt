ghost use Rattle.std.specs.Prelude.{◌≡◌, ◌≢◌, ◌⊎◌, ◌↔◌, List, IsTrue, true, false, IfSome, IfNone, IfOk};
ghost use Rattle.octets.specs.declared.proto.Proto.TheVariants.{Icmp};
ghost use Rattle.ip4_packet.specs.declared.head.Head4.{Head4 as Header};
ghost use Rattle.l4_headers.specs.Transport.{l4_of, IsBadTransport};
ghost use Rattle.one_edge.specs.declared.taken.Taken.{Taken as Packet};
ghost use Rattle.one_edge.specs.Edge.{edge_in};
ghost use Rattle.one_edge.specs.Served.{IsServedHead, IsServed, AreServed};

use crate::OneEdge;
use crate::taken::Taken;
use ip4_packet::Head4;
use l4_headers::{Ports, read_l4};
use octets::{NoMemory, Proto};
use pcap_files::Record;
use rule_book::RuleView;
use std::alloc::Global;

/// The least TTL that lasts for both nodes.
const LEAST_TTL: u8 = 3;

/// Octets of a header without options, over IPv4 and over IPv6.
const HEADER4: u16 = 20;

const HEADER6: u16 = 40;

/// The ports of a whole packet of TCP or UDP with this payload, and none where it is no such one.
fn flow_ports(proto: Proto, payload: &[u8]) -> Option<Ports>
    ensures found { IfSome result (λ ports.
        (proto ≢ Icmp) × (IsBadTransport proto payload.now true → ⊥) × (ports ≡ (l4_of proto payload.now).ports)) }
    ensures lacking { IfNone result ((proto ≡ Icmp) ⊎ IsBadTransport proto payload.now true) }
{
    if matches!(proto, Proto::Icmp) {
        return None;
    }
    match read_l4(proto, payload, true) {
        Ok(l4) => Some(l4.ports),
        Err(_) => None,
    }
}

impl OneEdge {
    /// Whether a packet with this header is whole, lasts for both nodes, goes to no rule's own address, and fits both
    /// networks.
    fn carries(&self, head: &Head4) -> bool
        ensures { IsTrue result ↔ IsServedHead (edge_in self.now) head.now }
    {
        let len = head.total.saturating_sub(u16::from(head.head_len));
        if head.mf || head.offset != 0 || head.ttl < LEAST_TTL {
            return false;
        }
        if len > self.mtus.mtu6 - HEADER6 || len > self.mtus.mtu4 - HEADER4 {
            return false;
        }
        !self.book.covers4(head.dst)
    }

    /// The packet in these octets, where it is served.
    pub(crate) fn taken(&self, octets: &[u8]) -> Option<Taken>
        ensures found { IfSome result (λ t. IsServed (edge_in self.now) t octets.now) }
        ensures lacking { IfNone result ((t : Packet) → IsServed (edge_in self.now) t octets.now → ⊥) }
    {
        let Ok(head) = Head4::read(octets) else {
            return None;
        };
        if head.routed || !self.carries(&head) {
            return None;
        }
        let Some(proto) = Proto::of4(head.proto) else {
            return None;
        };
        let Some(ports) = flow_ports(proto, head.payload(octets)) else {
            return None;
        };
        Some(Taken { head, proto, ports })
    }

    /// The packets of these records, where each is served.
    pub(crate) fn all_taken(
        &self,
        alloc: Global,
        records: &[Record],
    ) -> Result<Option<Vec<Taken>>, NoMemory>
        ensures found { IfOk result (λ found. IfSome found (λ ts. AreServed (edge_in self.now) records.now ts.items)) }
        ensures lacking { IfOk result (λ found.
            IfNone found ((ts : List Packet) → AreServed (edge_in self.now) records.now ts → ⊥)) }
    {
        let mut packets = Vec::with_capacity(alloc, records.len())?;
        for record in records {
            match self.taken(record.bytes.as_slice()) {
                Some(packet) => packets.push(packet)?,
                None => return Ok(None),
            }
        }
        Ok(Some(packets))
    }
}

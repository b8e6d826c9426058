//! IPv4 packets, from a LAN, from the core, or turned.
ghost use Rattle.std.specs.Prelude.{◌≡◌, ◌≢◌, ◌⊎◌, ℕ, List, IfOk, IfErr, Err, Ok, Some, false};
ghost use Rattle.octets.specs.Cause.{IsLeast};
ghost use Rattle.octets.specs.Protocol.{proto4};
ghost use Rattle.octets.specs.declared.cause.Cause.{Cause as AnyCause};
ghost use Rattle.octets.specs.declared.cause.Cause.TheVariants.{BadInner};
ghost use Rattle.octets.specs.declared.cause.Fault.TheVariants.{Drop as Dropped, NoMemory as WantsMemory};
ghost use Rattle.octets.specs.declared.proto.Proto.TheVariants.{Icmp};
ghost use Rattle.icmp_messages.specs.declared.inner4.Inner4.{Inner4 as Inner};
ghost use Rattle.icmp_messages.specs.Inner.{IsInner4};
ghost use Rattle.icmp_messages.specs.Extension.{embedded46};
ghost use Rattle.packets.specs.declared.packet4.Content4.{Content4 as Content};
ghost use Rattle.packets.specs.declared.packet4.Packet4.{Packet4 as Packet};
ghost use Rattle.packets.specs.Behind4.{Behind4, IsBadEmbedded4};
ghost use Rattle.packets.specs.Found.{IsFound4};
ghost use Rattle.packets.specs.Packet4.{IsContent4};
ghost use Rattle.packets.specs.Asked.{flow_of4, extent_of4, key_of4};

use crate::asked::{Extent, Flow};
use crate::found::Found;
use frag_table::FragKey;
use icmp_messages::{Icmp4, Inner4, Rest, Row, read_inner4};
use ip4_packet::Head4;
use l4_headers::{L4, NO_PORTS, read_l4};
use octets::{Cause, Fault, NoMemory, Proto};
use std::alloc::Global;

/// What an IPv4 packet carries.
#[derive(Debug, Drop)]
pub enum Content4 {
    /// TCP or UDP, in a whole packet or in the first fragment of one: its transport header.
    Segment {
        proto: Proto,
        l4: L4,
    },
    /// A later fragment of TCP or UDP.
    Later {
        proto: Proto,
    },
    /// An ICMP query, with the row by which it is translated.
    Query {
        message: Icmp4,
        row: Row,
    },
    /// An ICMP error, with the row by which it is translated, and the packet that it embeds.
    Error {
        message: Icmp4,
        row: Row,
        inner: Inner4,
    },
}

/// An IPv4 packet that has none of the causes for which every node drops a packet.
#[derive(Debug, Drop)]
pub struct Packet4 {
    pub head: Head4,
    pub content: Content4,
}

/// TCP or UDP behind this header.
fn segment4(head: &Head4, proto: Proto, payload: &[u8]) -> Result<Content4, Cause>
    requires protocol { proto4 head.now.proto ≡ Some proto }
    requires no_icmp { proto ≢ Icmp }
    requires unrouted { head.now.routed ≡ false }
    ensures found { IfOk result (λ content. IsContent4 head.now payload.now content) }
    ensures refused { IfErr result (λ cause. IsLeast (Behind4 head.now payload.now) cause) }
{
    if head.offset != 0 {
        return Ok(Content4::Later { proto });
    }
    let l4 = read_l4(proto, payload, !head.mf)?;
    if matches!(proto, Proto::Udp) && head.mf && l4.sum == 0 {
        return Err(Cause::NoUdpSum);
    }
    Ok(Content4::Segment { proto, l4 })
}

/// The packet that an ICMP error embeds, which was sent from where the error goes.
fn embedded_packet4(alloc: Global, head: &Head4, message: &Icmp4) -> Result<Inner4, Fault>
    ensures found { IfOk result (λ inner. IsInner4 inner (embedded46 message.now) × (inner.head.src ≡ head.now.dst)) }
    ensures refused { (cause : AnyCause) → result ≡ Err (Dropped cause) → (cause ≡ BadInner) × IsBadEmbedded4 head.now message.now }
{
    let inner = read_inner4(alloc, message.embedded())?;
    if inner.head.src != head.dst {
        return Err(Fault::Drop(Cause::BadInner));
    }
    Ok(inner)
}

/// The ICMP message behind this header.
fn message4(alloc: Global, head: &Head4, payload: &[u8]) -> Result<Content4, Fault>
    requires protocol { head.now.proto ≡ 1 }
    requires unrouted { head.now.routed ≡ false }
    ensures found { IfOk result (λ content. IsContent4 head.now payload.now content) }
    ensures refused { (cause : AnyCause) → result ≡ Err (Dropped cause) → IsLeast (Behind4 head.now payload.now) cause }
{
    if head.is_fragment() {
        return Err(Fault::Drop(Cause::IcmpFragment));
    }
    let message = Icmp4::read(alloc, payload)?;
    let Some(row) = message.row() else {
        return Err(Fault::Drop(Cause::IcmpKind));
    };
    if matches!(row.rest, Rest::Query) {
        return Ok(Content4::Query { message, row });
    }
    let inner = embedded_packet4(alloc, head, &message)?;
    Ok(Content4::Error {
        message,
        row,
        inner,
    })
}

/// What stands behind this header.
fn carried4(alloc: Global, head: &Head4, payload: &[u8]) -> Result<Content4, Fault>
    ensures found { IfOk result (λ content. (head.now.routed ≡ false) × IsContent4 head.now payload.now content) }
    ensures refused { (cause : AnyCause) → result ≡ Err (Dropped cause) → IsLeast (Behind4 head.now payload.now) cause }
{
    if head.routed {
        return Err(Fault::Drop(Cause::SourceRoute));
    }
    match Proto::of4(head.proto) {
        None => Err(Fault::Drop(Cause::UnsupportedProtocol)),
        Some(Proto::Icmp) => message4(alloc, head, payload),
        Some(proto) => Ok(segment4(head, proto, payload)?),
    }
}

impl Packet4 {
    /// The packet in these octets, from a LAN, from the core, or turned; or the least cause for which every node drops them before it
    /// looks at a rule: those of the header, and behind it `SourceRoute`, `UnsupportedProtocol`, `IcmpFragment`, `BadTransport`,
    /// `IcmpSum`, `IcmpKind`, `BadInner` and `NoUdpSum` (RFC 7915, section 4). The embedded packet of an error is one that was sent
    /// from where the error goes.
    pub fn read(alloc: Global, octets: &[u8]) -> Result<Found<Packet4, Head4>, NoMemory>
        ensures { IfOk result (IsFound4 octets.now) }
    {
        let head = match Head4::read(octets) {
            Ok(head) => head,
            Err(cause) => return Ok(Found::Unreadable(cause)),
        };
        match carried4(alloc, &head, head.payload(octets)) {
            Ok(content) => Ok(Found::Taken(Packet4 { head, content })),
            Err(Fault::Drop(cause)) => Ok(Found::Dropped(cause, head)),
            Err(Fault::NoMemory) => Err(NoMemory),
        }
    }

    /// The flow that the packet belongs to.
    pub fn flow(&self) -> Flow
        ensures { result ≡ flow_of4 self.now.content }
    {
        match &self.content {
            Content4::Segment { proto, l4 } => Flow {
                fault: false,
                proto: *proto,
                ports: l4.ports,
                flags: l4.flags,
            },
            Content4::Later { proto } => Flow {
                fault: false,
                proto: *proto,
                ports: NO_PORTS,
                flags: 0,
            },
            Content4::Query { message, .. } => Flow::of_query(message.rest),
            Content4::Error { inner, .. } => Flow {
                fault: true,
                proto: inner.proto,
                ports: inner.ports,
                flags: 0,
            },
        }
    }

    /// Whether it is whole, a first fragment or a later one.
    pub fn extent(&self) -> Extent
        ensures { result ≡ extent_of4 self.now.head }
    {
        Extent::of(self.head.offset, self.head.mf)
    }

    /// What its fragments are known by at the side of this number.
    pub fn key(&self, way: u8) -> FragKey
        ensures { result ≡ key_of4 way self.now.head }
    {
        FragKey {
            way,
            src: u128::from(self.head.src.0),
            dst: u128::from(self.head.dst.0),
            proto: self.head.proto,
            id: u32::from(self.head.id),
        }
    }
}

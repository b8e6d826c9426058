//! IPv6 packets, from the access network.
ghost use Rattle.std.specs.Prelude.{◌≡◌, ◌≢◌, ◌⊎◌, ℕ, List, IfOk, IfErr, Err, Ok, Some, None};
ghost use Rattle.octets.specs.Cause.{IsLeast};
ghost use Rattle.octets.specs.Protocol.{proto6};
ghost use Rattle.octets.specs.declared.cause.Cause.{Cause as AnyCause};
ghost use Rattle.octets.specs.declared.cause.Cause.TheVariants.{BadInner};
ghost use Rattle.octets.specs.declared.cause.Fault.TheVariants.{Drop as Dropped, NoMemory as WantsMemory};
ghost use Rattle.octets.specs.declared.proto.Proto.TheVariants.{Icmp};
ghost use Rattle.icmp_messages.specs.declared.inner6.Inner6.{Inner6 as Inner};
ghost use Rattle.icmp_messages.specs.Inner.{IsInner6};
ghost use Rattle.icmp_messages.specs.Extension.{embedded64};
ghost use Rattle.packets.specs.declared.packet6.Content6.{Content6 as Content};
ghost use Rattle.packets.specs.declared.packet6.Packet6.{Packet6 as Packet};
ghost use Rattle.packets.specs.Behind6.{Behind6, IsAnswered6, IsBadEmbedded6};
ghost use Rattle.packets.specs.Found.{IsFound6};
ghost use Rattle.packets.specs.Packet6.{IsContent6};
ghost use Rattle.packets.specs.Asked.{flow_of6, extent_of6, key_of6};

use crate::asked::{Extent, Flow};
use crate::found::Found;
use frag_table::FragKey;
use icmp_messages::{Icmp6, Inner6, Rest, Row, read_inner6};
use ip6_packet::Head6;
use l4_headers::{L4, NO_PORTS, read_l4};
use octets::{Cause, Fault, NoMemory, Proto};
use std::alloc::Global;

/// What an IPv6 packet carries.
#[derive(Debug, Drop)]
pub enum Content6 {
    /// TCP or UDP, in a whole packet or in the first fragment of one: its transport header.
    Segment {
        proto: Proto,
        l4: L4,
    },
    /// A later fragment of TCP or UDP.
    Later {
        proto: Proto,
    },
    /// An ICMPv6 query, with the row by which it is translated.
    Query {
        message: Icmp6,
        row: Row,
    },
    /// An ICMPv6 error, with the row by which it is translated, and the packet that it embeds.
    Error {
        message: Icmp6,
        row: Row,
        inner: Inner6,
    },
}

/// An IPv6 packet that has none of the causes for which every node drops a packet.
#[derive(Debug, Drop)]
pub struct Packet6 {
    pub head: Head6,
    pub content: Content6,
}

/// TCP or UDP behind these headers.
fn segment6(head: &Head6, proto: Proto, payload: &[u8], at_relay: bool) -> Result<Content6, Cause>
    requires protocol { proto6 head.now.upper ≡ Some proto }
    requires no_icmp { proto ≢ Icmp }
    requires unrouted { head.now.left ≡ None }
    ensures found { IfOk result (λ content. IsContent6 at_relay head.now payload.now content) }
    ensures refused { IfErr result (λ cause. IsLeast (Behind6 at_relay head.now payload.now) cause) }
{
    if head.fragment_offset() != 0 {
        return Ok(Content6::Later { proto });
    }
    let l4 = read_l4(proto, payload, !head.more_fragments())?;
    if matches!(proto, Proto::Udp) && l4.sum == 0 {
        return Err(Cause::NoUdpSum);
    }
    Ok(Content6::Segment { proto, l4 })
}

/// The packet that an ICMPv6 error embeds, which was sent from where the error goes.
fn embedded_packet6(
    alloc: Global,
    head: &Head6,
    message: &Icmp6,
    at_relay: bool,
) -> Result<Inner6, Fault>
    ensures found { IfOk result (λ inner. IsInner6 inner (embedded64 message.now) × IsAnswered6 at_relay head.now inner) }
    ensures refused { (cause : AnyCause) → result ≡ Err (Dropped cause) → (cause ≡ BadInner)
        × IsBadEmbedded6 at_relay head.now message.now }
{
    let inner = read_inner6(alloc, message.embedded())?;
    if inner.head.src != head.dst {
        return Err(Fault::Drop(Cause::BadInner));
    }
    if at_relay && inner.head.dst != head.src {
        return Err(Fault::Drop(Cause::BadInner));
    }
    Ok(inner)
}

/// The ICMPv6 message behind these headers.
fn message6(alloc: Global, head: &Head6, payload: &[u8], at_relay: bool) -> Result<Content6, Fault>
    requires protocol { head.now.upper ≡ 58 }
    requires unrouted { head.now.left ≡ None }
    ensures found { IfOk result (λ content. IsContent6 at_relay head.now payload.now content) }
    ensures refused { (cause : AnyCause) → result ≡ Err (Dropped cause) → IsLeast (Behind6 at_relay head.now payload.now) cause }
{
    if head.is_fragment() {
        return Err(Fault::Drop(Cause::IcmpFragment));
    }
    let message = Icmp6::read(alloc, head.src, head.dst, payload)?;
    let Some(row) = message.row() else {
        return Err(Fault::Drop(Cause::IcmpKind));
    };
    if matches!(row.rest, Rest::Query) {
        return Ok(Content6::Query { message, row });
    }
    let inner = embedded_packet6(alloc, head, &message, at_relay)?;
    Ok(Content6::Error {
        message,
        row,
        inner,
    })
}

/// What stands behind these headers.
fn carried6(alloc: Global, head: &Head6, payload: &[u8], at_relay: bool) -> Result<Content6, Fault>
    ensures found { IfOk result (λ content. (head.now.left ≡ None) × IsContent6 at_relay head.now payload.now content) }
    ensures refused { (cause : AnyCause) → result ≡ Err (Dropped cause) → IsLeast (Behind6 at_relay head.now payload.now) cause }
{
    if head.left.is_some() {
        return Err(Fault::Drop(Cause::SourceRoute));
    }
    match Proto::of6(head.upper) {
        None => Err(Fault::Drop(Cause::UnsupportedProtocol)),
        Some(Proto::Icmp) => message6(alloc, head, payload, at_relay),
        Some(proto) => Ok(segment6(head, proto, payload, at_relay)?),
    }
}

impl Packet6 {
    /// The packet in these octets, from the access network; or the least cause for which every node drops them before it looks at a
    /// rule: those of the headers, and behind them `SourceRoute`, `UnsupportedProtocol`, `IcmpFragment`, `BadTransport`, `IcmpSum`,
    /// `IcmpKind`, `BadInner` and `NoUdpSum` (RFC 7915, section 5). The embedded packet of an error is one that was sent from where
    /// the error goes. `at_relay` says that the relay takes it, to which an error comes only from an end of the flow that it is
    /// about: there its embedded packet was sent to the error's source.
    pub fn read(
        alloc: Global,
        octets: &[u8],
        at_relay: bool,
    ) -> Result<Found<Packet6, Head6>, NoMemory>
        ensures { IfOk result (IsFound6 at_relay octets.now) }
    {
        let head = match Head6::read(octets) {
            Ok(head) => head,
            Err(cause) => return Ok(Found::Unreadable(cause)),
        };
        match carried6(alloc, &head, head.payload(octets), at_relay) {
            Ok(content) => Ok(Found::Taken(Packet6 { head, content })),
            Err(Fault::Drop(cause)) => Ok(Found::Dropped(cause, head)),
            Err(Fault::NoMemory) => Err(NoMemory),
        }
    }

    /// The flow that the packet belongs to.
    pub fn flow(&self) -> Flow
        ensures { result ≡ flow_of6 self.now.content }
    {
        match &self.content {
            Content6::Segment { proto, l4 } => Flow {
                fault: false,
                proto: *proto,
                ports: l4.ports,
                flags: l4.flags,
            },
            Content6::Later { proto } => Flow {
                fault: false,
                proto: *proto,
                ports: NO_PORTS,
                flags: 0,
            },
            Content6::Query { message, .. } => Flow::of_query(message.rest),
            Content6::Error { inner, .. } => Flow {
                fault: true,
                proto: inner.proto,
                ports: inner.ports,
                flags: 0,
            },
        }
    }

    /// Whether it is whole, a first fragment or a later one.
    pub fn extent(&self) -> Extent
        ensures { result ≡ extent_of6 self.now.head }
    {
        Extent::of(self.head.fragment_offset(), self.head.more_fragments())
    }

    /// What its fragments are known by at the side of this number. Only a fragment has such a key.
    pub fn key(&self, way: u8) -> FragKey
        ensures { result ≡ key_of6 way self.now.head }
    {
        let id = match self.head.frag {
            Some(frag) => frag.id,
            None => 0,
        };
        FragKey {
            way,
            src: self.head.src.0,
            dst: self.head.dst.0,
            proto: self.head.upper,
            id,
        }
    }
}

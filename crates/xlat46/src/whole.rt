ghost use Rattle.std.specs.Prelude.{◌≡◌, ◌≢◌, ◌+◌, ◌<◌, ◌≤◌, not, IfOk, length};
ghost use Rattle.octets.specs.declared.proto.Proto.TheVariants.{Icmp};
ghost use Rattle.l4_headers.specs.Segment.{new_ports};
ghost use Rattle.l4_headers.specs.Transport.{IsBadTransport, l4_of, header_at, header_octets};
ghost use Rattle.xlat46.specs.Read.{parts_of};
ghost use Rattle.xlat46.specs.Whole.{Parts4, IsCarried4, HasNoTcpUdpCause4, lacks_sum, sum46, packet46, IsAccepted46};

use crate::head::head46;
use ip4_packet::Head4;
use l4_headers::{
    Ends, L4, Ports, Segment, accepted_l4, address_sum4, address_sum6, computed_udp_sum,
    followed_by, pseudo_sum6, readdressed_sum,
};
use octets::protocol::UDP;
use octets::{Addr6, Bytes, NoMemory, Proto};
use std::alloc::Global;

/// Whether this is a whole UDP packet without a sum, as IPv4 allows it (RFC 768).
fn lacks_sum(proto: Proto, fragment: bool, sum: u16) -> bool
    ensures { result ≡ lacks_sum proto fragment sum }
{
    match proto {
        Proto::Udp => !fragment && sum == 0,
        Proto::Tcp | Proto::Icmp => false,
    }
}

/// The sum of this transport header with these addresses and ports. It is computed for a whole UDP packet that has none,
/// and else changes by the words of both addresses and both ports (RFC 7915, section 4.5).
fn sum46(head: &Head4, segment: &Segment<'_>, l4: &L4, ends: &Ends<Addr6>) -> u16
    requires fits { length segment.now.payload.now < 65536 }
    requires read { l4.now ≡ l4_of segment.now.proto segment.now.payload.now }
    requires stands { header_octets segment.now.proto ≤ length segment.now.payload.now }
    ensures { result ≡ sum46 (parts_of head.now segment.now) ends.now.src ends.now.dst ends.now.ports }
{
    if lacks_sum(segment.proto, head.is_fragment(), l4.sum) {
        let pseudo = pseudo_sum6(ends.src, ends.dst, UDP, segment.payload.len() as u32);
        return computed_udp_sum(pseudo, segment.payload, ends.ports);
    }
    let before = address_sum4(head.src) + address_sum4(head.dst);
    let after = address_sum6(ends.src) + address_sum6(ends.dst);
    readdressed_sum(segment.proto, l4, before, after, ends.ports)
}

/// The TCP or UDP packet of IPv4 with this header that carries this, translated to IPv6 between these ends (RFC 7915, sections
/// 4.1 and 4.5). A later fragment gets no ports, and keeps its payload.
pub fn packet46(
    alloc: Global,
    head: &Head4,
    segment: &Segment<'_>,
    ends: &Ends<Addr6>,
) -> Result<Bytes, NoMemory>
    requires alive { 1 ≤ head.now.ttl }
    requires lengths { head.now.total ≡ head.now.head_len + length segment.now.payload.now }
    requires fits { length segment.now.payload.now ≤ 65515 }
    requires offset { head.now.offset < 8192 }
    requires carried { IsCarried4 (parts_of head.now segment.now) }
    requires read { segment.now.header ≡ header_at head.now.offset segment.now.proto segment.now.payload.now }
    ensures { IfOk result (λ octets. octets
        ≡ packet46 (parts_of head.now segment.now) ends.now.src ends.now.dst (new_ports segment.now ends.now.ports)) }
{
    let mut front = head46(head, ends.src, ends.dst).write_front(alloc, segment.payload.len())?;
    match &segment.header {
        None => {
            front.extend(segment.payload)?;
            Ok(front)
        }
        Some(l4) => {
            let sum = sum46(head, segment, l4, ends);
            followed_by(front, segment.proto, segment.payload, ends.ports, sum)
        }
    }
}

/// The transport header, which a later fragment lacks.
fn header_in(head: &Head4, proto: Proto, payload: &[u8]) -> Option<L4>
    requires { head.now.offset ≡ 0 → IsBadTransport proto payload.now (not head.now.mf) → ⊥ }
    ensures { result ≡ header_at head.now.offset proto payload.now }
{
    if head.offset != 0 {
        return None;
    }
    Some(accepted_l4(proto, payload))
}

/// The TCP or UDP packet of IPv4 in these octets, translated to IPv6 with these addresses and ports (RFC 7915,
/// sections 4.1 and 4.5). Options and what stands after the total length are dropped, a Fragment Header stands
/// exactly for a fragment, and a later fragment keeps its payload. The sum of a whole UDP packet that has none is
/// computed; any other changes by the words that changed, so that a wrong one stays wrong.
///
/// The packet has none of the causes for which it is dropped, a TTL of at least 2, and `ports` unless it is a later
/// fragment.
pub fn whole46(
    alloc: Global,
    packet: &[u8],
    src: Addr6,
    dst: Addr6,
    ports: Option<Ports>,
) -> Result<Bytes, NoMemory>
    requires { IsAccepted46 packet.now ports }
    ensures { (p : Parts4) → HasNoTcpUdpCause4 p packet.now → IfOk result (λ octets. octets ≡ packet46 p src dst ports) }
{
    let head = Head4::accepted(packet);
    let proto = Proto::of_segment(head.proto);
    let payload = head.payload(packet);
    let segment = Segment {
        proto,
        header: header_in(&head, proto, payload),
        payload,
    };
    packet46(alloc, &head, &segment, &Ends::between(src, dst, ports))
}

ghost use Rattle.std.specs.Prelude.{◌≡◌, ◌<◌, ◌≤◌, not, IfOk, length};
ghost use Rattle.l4_headers.specs.Segment.{new_ports};
ghost use Rattle.l4_headers.specs.Transport.{IsBadTransport, l4_of, header_at};
ghost use Rattle.ip6_packet.specs.Fragment.{more_fragments, fragment_offset};
ghost use Rattle.xlat64.specs.Read.{parts_of};
ghost use Rattle.xlat64.specs.Whole.{Parts6, IsCarried6, HasNoTcpUdpCause6, sum64, packet64, IsAccepted64};

use crate::head::head64;
use ip6_packet::Head6;
use l4_headers::{
    Ends, L4, Ports, Segment, accepted_l4, address_sum4, address_sum6, followed_by, readdressed_sum,
};
use octets::{Addr4, Bytes, NoMemory, Proto};
use std::alloc::Global;

/// The sum of this transport header with these addresses and ports, changed by the words of both addresses and both ports
/// (RFC 7915, section 5.5).
fn sum64(head: &Head6, segment: &Segment<'_>, l4: &L4, ends: &Ends<Addr4>) -> u16
    requires { l4.now ≡ l4_of segment.now.proto segment.now.payload.now }
    ensures { result ≡ sum64 (parts_of head.now segment.now) ends.now.src ends.now.dst ends.now.ports }
{
    let before = address_sum6(head.src) + address_sum6(head.dst);
    let after = address_sum4(ends.src) + address_sum4(ends.dst);
    readdressed_sum(segment.proto, l4, before, after, ends.ports)
}

/// The TCP or UDP packet of IPv6 with these headers that carries this, translated to IPv4 between these ends (RFC 7915, sections
/// 5.1 and 5.5). A later fragment gets no ports, and keeps its payload. `id` is the identification of a packet without a
/// Fragment Header.
pub fn packet64(
    alloc: Global,
    head: &Head6,
    segment: &Segment<'_>,
    ends: &Ends<Addr4>,
    id: u16,
) -> Result<Bytes, NoMemory>
    requires alive { 1 ≤ head.now.hop }
    requires length_is { head.now.length ≡ length segment.now.payload.now }
    requires fits { length segment.now.payload.now ≤ 65515 }
    requires offset { fragment_offset head.now.frag < 8192 }
    requires carried { IsCarried6 (parts_of head.now segment.now) }
    requires read { segment.now.header ≡ header_at (fragment_offset head.now.frag) segment.now.proto segment.now.payload.now }
    ensures { IfOk result (λ octets. octets
        ≡ packet64 (parts_of head.now segment.now) ends.now.src ends.now.dst (new_ports segment.now ends.now.ports) id) }
{
    let mut front = head64(head, ends.src, ends.dst, id).write_front(alloc, segment.payload.len())?;
    match &segment.header {
        None => {
            front.extend(segment.payload)?;
            Ok(front)
        }
        Some(l4) => {
            let sum = sum64(head, segment, l4, ends);
            followed_by(front, segment.proto, segment.payload, ends.ports, sum)
        }
    }
}

/// The transport header, which a later fragment lacks.
fn header_in(head: &Head6, proto: Proto, payload: &[u8]) -> Option<L4>
    requires { fragment_offset head.now.frag ≡ 0 → IsBadTransport proto payload.now (not (more_fragments head.now.frag)) → ⊥ }
    ensures { result ≡ header_at (fragment_offset head.now.frag) proto payload.now }
{
    if head.fragment_offset() != 0 {
        return None;
    }
    Some(accepted_l4(proto, payload))
}

/// The TCP or UDP packet of IPv6 in these octets, translated to IPv4 with these addresses and ports (RFC 7915,
/// sections 5.1 and 5.5). Extension headers and what stands after the payload length are dropped, and a later
/// fragment keeps its payload. The sum changes by the words that changed, so that a wrong one stays wrong. `id` is
/// the identification of a packet without a Fragment Header.
///
/// The packet has none of the causes for which it is dropped, a hop limit of at least 2, an upper payload of at
/// most 65,515 octets, and `ports` unless it is a later fragment.
pub fn whole64(
    alloc: Global,
    packet: &[u8],
    src: Addr4,
    dst: Addr4,
    ports: Option<Ports>,
    id: u16,
) -> Result<Bytes, NoMemory>
    requires { IsAccepted64 packet.now ports }
    ensures { (p : Parts6) → HasNoTcpUdpCause6 p packet.now → IfOk result (λ octets. octets ≡ packet64 p src dst ports id) }
{
    let head = Head6::accepted(packet);
    let proto = Proto::of_segment(head.upper);
    let payload = head.payload(packet);
    let segment = Segment {
        proto,
        header: header_in(&head, proto, payload),
        payload,
    };
    packet64(alloc, &head, &segment, &Ends::between(src, dst, ports), id)
}

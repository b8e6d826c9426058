ghost use Rattle.std.specs.Prelude.{◌≡◌, ◌≤◌};
ghost use Rattle.xlat46.specs.Head.{translated};

use ip4_packet::Head4;
use ip6_packet::{Frag6, Head6};
use octets::Addr6;
use octets::protocol::{ICMP4, ICMP6};

/// Octets before the upper protocol's, without and with a Fragment Header.
const START: u32 = 40;

const FRAGMENT_START: u32 = 48;

/// The IPv6 header of a translated IPv4 packet, with these addresses (RFC 7915, section 4.1). Options are
/// dropped, the flow label is 0, the hop limit is one below the TTL, and a Fragment Header stands exactly
/// for a fragment.
pub fn head46(head: &Head4, src: Addr6, dst: Addr6) -> Head6
    requires alive { 1 ≤ head.now.ttl }
    requires lengths { head.now.head_len ≤ head.now.total }
    ensures { result ≡ translated head.now src dst }
{
    let frag = if head.is_fragment() {
        Some(Frag6 {
            offset: head.offset,
            more: head.mf,
            id: u32::from(head.id),
        })
    } else {
        None
    };
    Head6 {
        class: head.tos,
        hop: head.ttl - 1,
        src,
        dst,
        upper: if head.proto == ICMP4 {
            ICMP6
        } else {
            head.proto
        },
        start: if frag.is_some() {
            FRAGMENT_START
        } else {
            START
        },
        length: head.total - u16::from(head.head_len),
        frag,
        left: None,
    }
}

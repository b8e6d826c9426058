ghost use Rattle.std.specs.Prelude.{◌≡◌, ◌≤◌};
ghost use Rattle.xlat64.specs.Head.{translated, total_of};

use ip4_packet::Head4;
use ip6_packet::Head6;
use octets::Addr4;
use octets::protocol::{ICMP4, ICMP6};

/// Octets of an IPv4 header without options.
const HEADER_LEN: u8 = 20;

/// The greatest total of a packet that may still be cut: it fits every IPv6 link, whose least MTU is 1280
/// octets, once it is translated back.
const LEAST_UNCUT: u16 = 1260;

/// The octets of the translated packet: header and upper payload. An embedded packet may declare more than the
/// field of the total length holds, and gets its greatest number.
fn total_of(head: &Head6) -> u16
    ensures { result ≡ total_of head.now }
{
    head.length.saturating_add(u16::from(HEADER_LEN))
}

/// The IPv4 header of a translated IPv6 packet, with these addresses (RFC 7915, section 5.1). There are no options
/// and the TTL is one below the hop limit. Identification, offset and flag are those of a Fragment Header, and
/// "don't fragment" is then 0. Without one the identification is `id`, and "don't fragment" says that the packet
/// has more than 1260 octets.
pub fn head64(head: &Head6, src: Addr4, dst: Addr4, id: u16) -> Head4
    requires { 1 ≤ head.now.hop }
    ensures { result ≡ translated head.now src dst id }
{
    let total = total_of(head);
    let (id, df, mf, offset) = match head.frag {
        Some(frag) => ((frag.id % (1 << 16)) as u16, false, frag.more, frag.offset),
        None => (id, total > LEAST_UNCUT, false, 0),
    };
    Head4 {
        tos: head.class,
        id,
        df,
        mf,
        offset,
        ttl: head.hop - 1,
        proto: if head.upper == ICMP6 {
            ICMP4
        } else {
            head.upper
        },
        src,
        dst,
        head_len: HEADER_LEN,
        total,
        routed: false,
    }
}

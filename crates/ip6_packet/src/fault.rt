//! For what octets are refused as an IPv6 packet, one test a cause.

ghost use Rattle.std.specs.Prelude.{◌≡◌, ◌+◌, ◌<◌, ◌≤◌, ◌↔◌, IsTrue, length};
ghost use Rattle.ip6_packet.specs.Grammar.{payload_len};
ghost use Rattle.ip6_packet.specs.Causes.{IsNotIp6, IsTruncated6, IsWrongFrag6, IsNoDestination6};

use crate::head::Frag6;
use crate::layout::{GROUP, HEADER_LEN, LENGTH_AT, VERSION, VERSION_AT};
use octets::{Addr6, is_wrong_fragment, word_at};

/// The declared length of what stands behind the IPv6 header, in octets.
pub(crate) fn payload_len(octets: &[u8]) -> usize
    requires { 6 ≤ length octets.now }
    ensures value { result ≡ payload_len octets.now }
    ensures below { result < 65536 }
{
    usize::from(word_at(octets, LENGTH_AT))
}

/// No octet stands, or another version.
pub(crate) fn is_not_ip(octets: &[u8]) -> bool
    ensures { IsTrue result ↔ IsNotIp6 octets.now }
{
    octets.is_empty() || octets[VERSION_AT] / 16 != VERSION
}

/// Fewer octets stand than the header or the packet has.
pub(crate) fn is_truncated(octets: &[u8]) -> bool
    ensures { IsTrue result ↔ IsTruncated6 octets.now }
{
    octets.len() < HEADER_LEN || octets.len() < HEADER_LEN + payload_len(octets)
}

/// There is a Fragment Header, and it disagrees with the length of the payload behind it.
pub(crate) fn is_wrong_frag(frag: Option<Frag6>, len: usize) -> bool
    requires { len < 65536 }
    ensures { IsTrue result ↔ IsWrongFrag6 frag len }
{
    match frag {
        None => false,
        Some(frag) => is_wrong_fragment(frag.offset, frag.more, len),
    }
}

/// A group address (ff00::/8) or the unspecified address.
pub fn is_no_destination(addr: Addr6) -> bool
    ensures { IsTrue result ↔ IsNoDestination6 addr.0 }
{
    addr.0 >> 120 == GROUP || addr.0 == 0
}

//! For what octets are refused as an IPv4 packet, one test a cause.

ghost use Rattle.std.specs.Prelude.{◌≡◌, ◌<◌, ◌≤◌, ◌↔◌, IsTrue, length, take};
ghost use Rattle.inet_sum.specs.Sum.{IsRight};
ghost use Rattle.ip4_packet.specs.Grammar.{header_len, total_len};
ghost use Rattle.ip4_packet.specs.Causes.{IsNotIp4, IsTruncated4, IsNoDestination4};

use crate::layout::{GROUP, HEADER_LEN, TOTAL_AT, VERSION, VERSION_AT};
use octets::{Addr4, word_at};

/// The declared length of the header in octets, 0 to 60, a multiple of 4.
pub(crate) fn header_len(octets: &[u8]) -> usize
    requires { 0 < length octets.now }
    ensures { result ≡ header_len octets.now }
{
    4 * usize::from(octets[VERSION_AT] % 16)
}

/// The declared length of the packet in octets.
pub(crate) fn total_len(octets: &[u8]) -> usize
    requires { 4 ≤ length octets.now }
    ensures { result ≡ total_len octets.now }
{
    usize::from(word_at(octets, TOTAL_AT))
}

/// No octet stands, or another version.
pub(crate) fn is_not_ip(octets: &[u8]) -> bool
    ensures { IsTrue result ↔ IsNotIp4 octets.now }
{
    octets.is_empty() || octets[VERSION_AT] / 16 != VERSION
}

/// Fewer octets stand than the header, the header with its options, or the packet has.
pub(crate) fn is_truncated(octets: &[u8]) -> bool
    ensures { IsTrue result ↔ IsTruncated4 octets.now }
{
    let len = octets.len();
    len < HEADER_LEN || len < header_len(octets) || len < total_len(octets)
}

/// The header's words, its sum among them, fold to 65535 (RFC 1071).
pub(crate) fn has_right_sum(octets: &[u8]) -> bool
    requires some { 0 < length octets.now }
    requires whole { header_len octets.now ≤ length octets.now }
    ensures { IsTrue result ↔ IsRight (take (header_len octets.now) octets.now) }
{
    inet_sum::fold(inet_sum::sum(&octets[..header_len(octets)])) == u16::MAX
}

/// A group address (224.0.0.0/4), the broadcast address, or the unspecified address.
pub fn is_no_destination(addr: Addr4) -> bool
    ensures { IsTrue result ↔ IsNoDestination4 addr.0 }
{
    addr.0 >> 28 == GROUP || addr.0 == u32::MAX || addr.0 == 0
}

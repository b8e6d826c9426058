//! Sums of the words of pseudo headers (RFC 768; RFC 9293, section 3.1; RFC 8200, section 8.1).
ghost use Rattle.std.specs.Prelude.{◌≡◌, ◌^◌, ◌≤◌};
ghost use Rattle.inet_sum.specs.Sum.{words};
ghost use Rattle.octets.specs.Field.{in_quad, in_sixteen};
ghost use Rattle.l4_headers.specs.PseudoHeader.{pseudo_header4, pseudo_header6};

use inet_sum::sum;
use octets::{Addr4, Addr6};

/// The sum of the words of an IPv4 address.
pub fn address_sum4(addr: Addr4) -> u64
    ensures value { result ≡ words (in_quad addr.0) }
    ensures bounded { result ≤ 2 ^ 17 }
{
    sum(&addr.0.to_be_bytes())
}

/// The sum of the words of an IPv6 address.
pub fn address_sum6(addr: Addr6) -> u64
    ensures value { result ≡ words (in_sixteen addr.0) }
    ensures bounded { result ≤ 2 ^ 20 }
{
    sum(&addr.0.to_be_bytes())
}

/// The sum of the words of an IPv4 pseudo header: the addresses, the number of the protocol, and the length of
/// its header and payload in octets.
pub fn pseudo_sum4(src: Addr4, dst: Addr4, protocol: u8, len: u16) -> u64
    ensures value { result ≡ words (pseudo_header4 src dst protocol len) }
    ensures bounded { result ≤ 2 ^ 19 }
{
    address_sum4(src) + address_sum4(dst) + u64::from(protocol) + u64::from(len)
}

/// The sum of the words of an IPv6 pseudo header: the addresses, the number of the upper protocol, and the length
/// of its header and payload in octets.
pub fn pseudo_sum6(src: Addr6, dst: Addr6, protocol: u8, len: u32) -> u64
    ensures value { result ≡ words (pseudo_header6 src dst protocol len) }
    ensures bounded { result ≤ 2 ^ 22 }
{
    let len_words = u64::from(len >> 16) + u64::from(len % (1 << 16));
    address_sum6(src) + address_sum6(dst) + u64::from(protocol) + len_words
}

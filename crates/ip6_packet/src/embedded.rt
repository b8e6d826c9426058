//! The packet inside an ICMP error (RFC 4443, section 2.4), of which nothing but its headers' place is
//! judged.

ghost use Rattle.std.specs.Prelude.{◌≡◌, ◌+◌, ◌≤◌, IfSome, IfNone, length};
ghost use Rattle.ip6_packet.specs.Grammar.{payload_len, chain_of, payload_of6};
ghost use Rattle.ip6_packet.specs.Embedded.{HasHeaders6, LacksHeaders6};

use crate::chain::{Chain, chain_of};
use crate::fault::{is_not_ip, payload_len};
use crate::head::Head6;
use crate::layout::{HEADER_LEN, NEXT_AT};
use crate::read::fields;

/// The chain of extension headers in the octets that stand, up to the declared length.
fn standing_chain(octets: &[u8]) -> Option<Chain>
    requires { 40 ≤ length octets.now }
    ensures value { result ≡ chain_of octets.now }
    ensures behind { IfSome result (λ chain. 40 ≤ chain.start) }
    ensures declared { IfSome result (λ chain. chain.start ≤ 40 + payload_len octets.now) }
    ensures stands { IfSome result (λ chain. chain.start ≤ length octets.now) }
{
    let end = octets.len().min(HEADER_LEN + payload_len(octets));
    chain_of(octets[NEXT_AT], &octets[HEADER_LEN..end])
}

impl Head6 {
    /// The headers at the front of an embedded packet (RFC 4443, section 2.4). Its declared length may pass
    /// the octets that stand. Fragment fields and destination aren't looked at.
    ///
    /// None exactly where no headers stand there: fewer than 40 octets, another version, or a chain of
    /// extension headers that passes the octets or has a second Fragment Header.
    pub fn read_embedded(octets: &[u8]) -> Option<Head6>
        ensures headers { IfSome result (λ h. HasHeaders6 h octets.now) }
        ensures lacking { IfNone result (LacksHeaders6 octets.now) }
    {
        if octets.len() < HEADER_LEN || is_not_ip(octets) {
            return None;
        }
        let chain = standing_chain(octets)?;
        Some(fields(octets, chain))
    }

    /// The payload among the octets that begin with these headers: those behind the chain, up to the
    /// declared length or, of a packet that was cut, as far as they stand.
    pub fn payload<'a>(&self, octets: &'a [u8]) -> &'a [u8]
        ensures { result.now ≡ payload_of6 self.now octets.now }
    {
        let start = octets.len().min(self.start as usize);
        let end = octets.len().min(start + usize::from(self.length));
        &octets[start..end]
    }
}

//! ICMP of both versions (RFC 792, RFC 4443).
ghost use Rattle.std.specs.Prelude.{◌≡◌, ◌<◌, ◌≤◌, ◌↔◌, IsTrue, length};
ghost use Rattle.octets.specs.declared.proto.Proto.TheVariants.{Icmp};
ghost use Rattle.l4_headers.specs.Transport.{l4_of, with_l4};

use crate::place::{ICMP_SUM_AT, IDENTIFIER_AT};
use crate::{L4, Ports};
use byteorder::{BigEndian, ByteOrder};
use octets::icmp_type::{ECHO_REPLY4, ECHO_REPLY6, ECHO_REQUEST4, ECHO_REQUEST6};

const KIND: usize = 0;

/// The octets of the header.
const HEADER: usize = 8;

/// The types of queries, of both versions.
const QUERIES: [u8; 4] = [ECHO_REPLY4, ECHO_REQUEST4, ECHO_REQUEST6, ECHO_REPLY6];

/// Whether the header doesn't stand there.
pub(crate) fn is_bad(payload: &[u8]) -> bool
    ensures { IsTrue result ↔ (length payload.now < HEADER) }
{
    payload.len() < HEADER
}

/// Octets 4 and 5 as both ports.
pub fn ports(payload: &[u8]) -> Ports
    requires { HEADER ≤ length payload.now }
    ensures { result ≡ (l4_of Icmp payload.now).ports }
{
    let identifier = BigEndian::read_u16(&payload[IDENTIFIER_AT..]);
    Ports {
        src: identifier,
        dst: identifier,
    }
}

/// The sum, and octets 4 and 5 as both ports.
pub(crate) fn read(payload: &[u8]) -> L4
    requires { HEADER ≤ length payload.now }
    ensures { result ≡ l4_of Icmp payload.now }
{
    L4 {
        ports: ports(payload),
        sum: BigEndian::read_u16(&payload[ICMP_SUM_AT..]),
        flags: 0,
    }
}

/// Replaces the sum, and the identifier of a query.
pub(crate) fn set(payload: &mut [u8], ports: Ports, sum: u16)
    requires { HEADER ≤ length payload.old }
    ensures { payload.new ≡ with_l4 Icmp payload.old ports sum }
{
    if QUERIES.contains(&payload[KIND]) {
        BigEndian::write_u16(&mut payload[IDENTIFIER_AT..], ports.src);
    }
    BigEndian::write_u16(&mut payload[ICMP_SUM_AT..], sum);
}

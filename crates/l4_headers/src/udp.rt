//! UDP (RFC 768).
ghost use Rattle.std.specs.Prelude.{◌≡◌, ◌≤◌, ◌↔◌, IsTrue, length};
ghost use Rattle.octets.specs.declared.proto.Proto.TheVariants.{Udp};
ghost use Rattle.l4_headers.specs.Transport.{IsBadTransport, l4_of, with_l4};

use crate::place::{DESTINATION_PORT_AT, SOURCE_PORT_AT, UDP_SUM_AT};
use crate::{L4, Ports};
use byteorder::{BigEndian, ByteOrder};

const LENGTH: usize = 4;

/// The octets of the header.
const HEADER: usize = 8;

/// Whether the header doesn't stand there, or a whole packet's length isn't the payload's.
pub(crate) fn is_bad(payload: &[u8], whole: bool) -> bool
    ensures { IsTrue result ↔ IsBadTransport Udp payload.now whole }
{
    if payload.len() < HEADER {
        return true;
    }
    whole && usize::from(BigEndian::read_u16(&payload[LENGTH..])) != payload.len()
}

/// The ports, which stand in the first 8 octets.
pub fn ports(payload: &[u8]) -> Ports
    requires { 8 ≤ length payload.now }
    ensures { result ≡ (l4_of Udp payload.now).ports }
{
    Ports {
        src: BigEndian::read_u16(&payload[SOURCE_PORT_AT..]),
        dst: BigEndian::read_u16(&payload[DESTINATION_PORT_AT..]),
    }
}

/// The header's ports and sum.
pub(crate) fn read(payload: &[u8]) -> L4
    requires { HEADER ≤ length payload.now }
    ensures { result ≡ l4_of Udp payload.now }
{
    L4 {
        ports: ports(payload),
        sum: BigEndian::read_u16(&payload[UDP_SUM_AT..]),
        flags: 0,
    }
}

/// Replaces the ports and the sum.
pub(crate) fn set(payload: &mut [u8], ports: Ports, sum: u16)
    requires { HEADER ≤ length payload.old }
    ensures { payload.new ≡ with_l4 Udp payload.old ports sum }
{
    BigEndian::write_u16(&mut payload[SOURCE_PORT_AT..], ports.src);
    BigEndian::write_u16(&mut payload[DESTINATION_PORT_AT..], ports.dst);
    BigEndian::write_u16(&mut payload[UDP_SUM_AT..], sum);
}

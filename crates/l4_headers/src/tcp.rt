//! TCP (RFC 9293 section 3.1).
ghost use Rattle.std.specs.Prelude.{◌≡◌, ◌≤◌, ◌↔◌, IsTrue, length};
ghost use Rattle.octets.specs.declared.proto.Proto.TheVariants.{Tcp};
ghost use Rattle.l4_headers.specs.Transport.{IsBadTransport, l4_of, with_l4};

use crate::place::{DESTINATION_PORT_AT, SOURCE_PORT_AT, TCP_SUM_AT};
use crate::{L4, Ports};
use byteorder::{BigEndian, ByteOrder};

const DATA_OFFSET: usize = 12;

const FLAGS: usize = 13;

/// The octets of a header without options.
const HEADER: usize = 20;

/// Whether the header doesn't stand there, or a whole packet's data offset is below it or past the payload.
pub(crate) fn is_bad(payload: &[u8], whole: bool) -> bool
    ensures { IsTrue result ↔ IsBadTransport Tcp payload.now whole }
{
    if payload.len() < HEADER {
        return true;
    }
    let header = usize::from(payload[DATA_OFFSET] >> 4) * 4;
    whole && (header < HEADER || payload.len() < header)
}

/// The ports, which stand in the first 8 octets.
pub fn ports(payload: &[u8]) -> Ports
    requires { 8 ≤ length payload.now }
    ensures { result ≡ (l4_of Tcp payload.now).ports }
{
    Ports {
        src: BigEndian::read_u16(&payload[SOURCE_PORT_AT..]),
        dst: BigEndian::read_u16(&payload[DESTINATION_PORT_AT..]),
    }
}

/// The header's ports, sum and flags.
pub(crate) fn read(payload: &[u8]) -> L4
    requires { HEADER ≤ length payload.now }
    ensures { result ≡ l4_of Tcp payload.now }
{
    L4 {
        ports: ports(payload),
        sum: BigEndian::read_u16(&payload[TCP_SUM_AT..]),
        flags: payload[FLAGS],
    }
}

/// Replaces the ports and the sum.
pub(crate) fn set(payload: &mut [u8], ports: Ports, sum: u16)
    requires { HEADER ≤ length payload.old }
    ensures { payload.new ≡ with_l4 Tcp payload.old ports sum }
{
    BigEndian::write_u16(&mut payload[SOURCE_PORT_AT..], ports.src);
    BigEndian::write_u16(&mut payload[DESTINATION_PORT_AT..], ports.dst);
    BigEndian::write_u16(&mut payload[TCP_SUM_AT..], sum);
}

//! Where the fields of a message stand, in octets from its start (RFC 792; RFC 4443, section 2.1).

ghost use Rattle.std.specs.Prelude.{◌≡◌};
ghost use Rattle.icmp_messages.specs.Message.{front};

use byteorder::{BigEndian, ByteOrder};

/// The type.
pub(crate) const KIND_AT: usize = 0;
/// The code.
pub(crate) const CODE_AT: usize = 1;
/// The sum.
pub(crate) const SUM_AT: usize = 2;
/// Four octets whose use goes by the type.
pub(crate) const REST_AT: usize = 4;
/// Octets in front of the body.
pub(crate) const FRONT_LEN: usize = 8;

/// The octets in front of the body.
pub(crate) fn front(kind: u8, code: u8, rest: u32, sum: u16) -> [u8; FRONT_LEN]
    ensures { result ≡ front kind code rest sum }
{
    let mut front = [0; FRONT_LEN];
    front[KIND_AT] = kind;
    front[CODE_AT] = code;
    BigEndian::write_u16(&mut front[SUM_AT..], sum);
    BigEndian::write_u32(&mut front[REST_AT..], rest);
    front
}

ghost use Rattle.std.specs.Prelude.{◌≡◌, ◌+◌, ◌<◌, ◌≤◌, length, IfOk, OnOk, false};
ghost use Rattle.ip4_packet.specs.Written.{written4, header4, header_with, fragment_field, IsInRange};
ghost use Rattle.ip4_packet.specs.Fragment.{is_fragment};
ghost use Rattle.ip4_packet.specs.Grammar.{Is4};
ghost use Rattle.ip4_packet.specs.Causes.{HasNoHeaderCause4, IsSound4};

use crate::layout::{
    DESTINATION_AT, DONT_FRAGMENT, FRAGMENT_AT, HEADER_LEN, ID_AT, MORE_FRAGMENTS, PROTO_AT,
    SOURCE_AT, SUM_AT, TOS_AT, TOTAL_AT, TTL_AT, VERSION_AND_LEN, VERSION_AT,
};
use byteorder::{BigEndian, ByteOrder};
use octets::{Addr4, Bytes, NoMemory};
use std::alloc::Global;

/// The fields of an IPv4 packet's header (RFC 791, section 3.1).
#[derive(Clone, Copy, Debug, PartialEq, Eq, Hash)]
pub struct Head4 {
    /// The type of service.
    pub tos: u8,
    /// The identification.
    pub id: u16,
    /// Don't fragment.
    pub df: bool,
    /// More fragments follow.
    pub mf: bool,
    /// Where the fragment stands in the whole payload, in units of 8 octets: 0 to 8191.
    pub offset: u16,
    /// The time to live.
    pub ttl: u8,
    /// The protocol of the payload.
    pub proto: u8,
    /// The source.
    pub src: Addr4,
    /// The destination.
    pub dst: Addr4,
    /// Octets of the header with its options: 20 to 60, a multiple of 4.
    pub head_len: u8,
    /// Octets of the packet, its header among them.
    pub total: u16,
    /// An option is a source route that isn't spent yet.
    pub routed: bool,
}

impl Head4 {
    /// The flags and the offset.
    fn fragment_field(&self) -> u16
        requires { self.now.offset < 8192 }
        ensures { result ≡ fragment_field self.now }
    {
        let df = if self.df { DONT_FRAGMENT } else { 0 };
        let mf = if self.mf { MORE_FRAGMENTS } else { 0 };
        df + mf + self.offset
    }

    /// The header with a sum of 0.
    fn header_without_sum(&self) -> [u8; HEADER_LEN]
        requires { self.now.offset < 8192 }
        ensures header { result ≡ header_with self.now 0 }
        ensures in_range { IsInRange self.now }
    {
        let Head4 {
            tos,
            id,
            ttl,
            proto,
            src: Addr4(src),
            dst: Addr4(dst),
            total,
            ..
        } = *self;
        let mut header = [0; HEADER_LEN];
        header[VERSION_AT] = VERSION_AND_LEN;
        header[TOS_AT] = tos;
        BigEndian::write_u16(&mut header[TOTAL_AT..], total);
        BigEndian::write_u16(&mut header[ID_AT..], id);
        BigEndian::write_u16(&mut header[FRAGMENT_AT..], self.fragment_field());
        header[TTL_AT] = ttl;
        header[PROTO_AT] = proto;
        BigEndian::write_u32(&mut header[SOURCE_AT..], src);
        BigEndian::write_u32(&mut header[DESTINATION_AT..], dst);
        header
    }

    /// The header.
    fn header(&self) -> [u8; HEADER_LEN]
        requires { self.now.offset < 8192 }
        ensures header { result ≡ header4 self.now }
        ensures in_range { IsInRange self.now }
    {
        let mut header = self.header_without_sum();
        let check = inet_sum::check_of(inet_sum::sum(&header));
        BigEndian::write_u16(&mut header[SUM_AT..], check);
        header
    }

    /// Whether this is a fragment: more follow, or it is a later one (RFC 791, section 3.2).
    pub fn is_fragment(&self) -> bool
        ensures { result ≡ is_fragment self.now }
    {
        self.mf || self.offset != 0
    }

    /// The header alone as `write` has it, in memory with room for so many octets of payload behind it.
    pub fn write_front(&self, alloc: Global, room: usize) -> Result<Bytes, NoMemory>
        requires { self.now.offset < 8192 }
        ensures written { IfOk result (λ octets. octets ≡ header4 self.now) }
        ensures in_range { OnOk result (IsInRange self.now) }
    {
        let mut octets = Bytes::with_room(alloc, HEADER_LEN.saturating_add(room))?;
        octets.extend(&self.header())?;
        Ok(octets)
    }

    /// The packet with these fields and this payload, in the one form that is written (RFC 791,
    /// section 3.1): no options, the reserved flag 0, the right header sum, and nothing after the
    /// payload. `total` may be more than the octets that stand: so is an embedded packet written that
    /// was cut.
    pub fn write(&self, alloc: Global, payload: &[u8]) -> Result<Bytes, NoMemory>
        requires declared { 20 + length payload.now ≤ self.now.total }
        requires bare { self.now.head_len ≡ 20 }
        requires unrouted { self.now.routed ≡ false }
        requires offset { self.now.offset < 8192 }
        ensures written { IfOk result (λ octets. octets ≡ written4 self.now payload.now) }
        // What is written is read again as the same fields and payload.
        ensures again { IsSound4 self.now payload.now → IfOk result (λ octets. Is4 self.now payload.now octets × HasNoHeaderCause4 octets) }
    {
        let mut octets = self.write_front(alloc, payload.len())?;
        octets.extend(payload)?;
        Ok(octets)
    }
}

ghost use Rattle.std.specs.Prelude.{◌≡◌, ◌^◌, ◌<◌, ◌≤◌, ◌↔◌, ◌++◌, IsTrue, length, IfOk, OnOk, None};
ghost use Rattle.ip6_packet.specs.Written.{written6, fixed_header, fragment_header, fragment_part, IsUpper, IsPlaced, IsInRange, FitsFrag, IsPacket6};
ghost use Rattle.ip6_packet.specs.Fragment.{fragment_offset, more_fragments, IsFragment6};
ghost use Rattle.ip6_packet.specs.Grammar.{Is6};
ghost use Rattle.ip6_packet.specs.Causes.{HasNoHeaderCause6, IsSound6};

use crate::layout::{
    DESTINATION_AT, FRAGMENT, FRAGMENT_ID_AT, FRAGMENT_LEN, FRAGMENT_OFFSET_AT, HEADER_LEN, HOP_AT,
    LENGTH_AT, NEXT_AT, SOURCE_AT,
};
use byteorder::{BigEndian, ByteOrder};
use octets::{Addr6, Bytes, NoMemory};
use std::alloc::Global;

/// The Fragment Header (RFC 8200, section 4.5).
#[derive(Clone, Copy, Debug, PartialEq, Eq, Hash)]
pub struct Frag6 {
    /// Where the fragment stands in the whole payload, in units of 8 octets: 0 to 8191.
    pub offset: u16,
    /// More fragments follow.
    pub more: bool,
    /// The identification of the whole packet.
    pub id: u32,
}

/// The fields of an IPv6 packet's headers (RFC 8200).
#[derive(Clone, Copy, Debug, PartialEq, Eq, Hash)]
pub struct Head6 {
    /// The traffic class.
    pub class: u8,
    /// The hop limit.
    pub hop: u8,
    /// The source.
    pub src: Addr6,
    /// The destination.
    pub dst: Addr6,
    /// The number of the protocol behind the chain of extension headers.
    pub upper: u8,
    /// Where the upper protocol's octets begin, in octets from the packet's first.
    pub start: u32,
    /// How many octets the upper protocol has, by the declared payload length.
    pub length: u16,
    /// The Fragment Header, where there is one.
    pub frag: Option<Frag6>,
    /// The place of the first count of segments left that is above 0, in octets from the packet's first.
    pub left: Option<u32>,
}

impl Frag6 {
    /// The octets of the Fragment Header in front of this upper protocol.
    fn header(&self, upper: u8) -> [u8; FRAGMENT_LEN]
        requires { self.now.offset < 8192 }
        ensures header { result ≡ fragment_header upper self.now }
        ensures in_range { self.now.id < 2 ^ 32 }
    {
        let id = self.id;
        let mut header = [0; FRAGMENT_LEN];
        header[0] = upper;
        let units = self.offset << 3;
        let field = if self.more { units + 1 } else { units };
        BigEndian::write_u16(&mut header[FRAGMENT_OFFSET_AT..], field);
        BigEndian::write_u32(&mut header[FRAGMENT_ID_AT..], id);
        header
    }
}

impl Head6 {
    /// The octets of the IPv6 header.
    fn header(&self) -> [u8; HEADER_LEN]
        requires { IsPlaced self.now.start self.now.length self.now.frag }
        ensures header { result ≡ fixed_header self.now }
        ensures in_range { IsInRange self.now }
    {
        let Head6 {
            class,
            hop,
            src: Addr6(src),
            dst: Addr6(dst),
            length,
            ..
        } = *self;
        let (next, behind) = match self.frag {
            None => (self.upper, length),
            Some(_) => (FRAGMENT, length + FRAGMENT_LEN as u16),
        };
        let mut header = [0; HEADER_LEN];
        BigEndian::write_u32(&mut header, 6 << 28 | u32::from(class) << 20);
        BigEndian::write_u16(&mut header[LENGTH_AT..], behind);
        header[NEXT_AT] = next;
        header[HOP_AT] = hop;
        BigEndian::write_u128(&mut header[SOURCE_AT..], src);
        BigEndian::write_u128(&mut header[DESTINATION_AT..], dst);
        header
    }

    /// Adds the Fragment Header, where there is one.
    fn put_fragment(&self, octets: &mut Bytes) -> Result<(), NoMemory>
        requires { IsPlaced self.now.start self.now.length self.now.frag }
        ensures written { OnOk result (octets.new ≡ octets.old ++ fragment_part self.now.upper self.now.frag) }
        ensures in_range { OnOk result (FitsFrag self.now.frag) }
    {
        if let Some(frag) = self.frag {
            octets.extend(&frag.header(self.upper))?;
        }
        Ok(())
    }

    /// Where the payload stands in the whole one, in units of 8 octets: above 0 exactly in a later fragment.
    pub fn fragment_offset(&self) -> u16
        ensures { result ≡ fragment_offset self.now.frag }
    {
        match self.frag {
            None => 0,
            Some(frag) => frag.offset,
        }
    }

    /// More fragments follow.
    pub fn more_fragments(&self) -> bool
        ensures { result ≡ more_fragments self.now.frag }
    {
        match self.frag {
            None => false,
            Some(frag) => frag.more,
        }
    }

    /// Whether this is a fragment: more follow, or it is a later one (RFC 8200, section 4.5).
    pub fn is_fragment(&self) -> bool
        ensures { IsTrue result ↔ IsFragment6 self.now }
    {
        self.more_fragments() || self.fragment_offset() != 0
    }

    /// The headers alone as `write` has them, in memory with room for so many octets of payload behind them.
    pub fn write_front(&self, alloc: Global, room: usize) -> Result<Bytes, NoMemory>
        requires { IsPlaced self.now.start self.now.length self.now.frag }
        ensures written { IfOk result (λ octets. octets ≡ fixed_header self.now ++ fragment_part self.now.upper self.now.frag) }
        ensures in_range { OnOk result (IsInRange self.now) }
        ensures frag_in_range { OnOk result (FitsFrag self.now.frag) }
    {
        let headers = self.start as usize;
        let mut octets = Bytes::with_room(alloc, headers.saturating_add(room))?;
        octets.extend(&self.header())?;
        self.put_fragment(&mut octets)?;
        Ok(octets)
    }

    /// The packet with these fields and this payload, in the one form that is written (RFC 8200,
    /// sections 3 and 4.5): no flow label, no extension header but the Fragment Header of `frag`, and
    /// nothing after the payload. `length` may be more than the payload has octets: so is an embedded
    /// packet written that was cut.
    pub fn write(&self, alloc: Global, payload: &[u8]) -> Result<Bytes, NoMemory>
        requires declared { length payload.now ≤ self.now.length }
        requires unrouted { self.now.left ≡ None }
        requires upper { IsUpper self.now.upper }
        requires placed { IsPlaced self.now.start self.now.length self.now.frag }
        ensures written { IfOk result (λ octets. octets ≡ written6 self.now payload.now) }
        // A payload of the declared length makes a whole packet.
        ensures form { self.now.length ≡ length payload.now → IfOk result (λ octets. IsPacket6 self.now payload.now octets) }
        // What is written is read again as the same fields and payload.
        ensures again { IsSound6 self.now payload.now → IfOk result (λ octets. Is6 self.now payload.now octets × HasNoHeaderCause6 octets) }
    {
        let mut octets = self.write_front(alloc, payload.len())?;
        octets.extend(payload)?;
        Ok(octets)
    }
}

//! The chain of extension headers (RFC 8200, section 4).

ghost use Rattle.std.specs.Prelude.{◌≡◌, ◌+◌, ◌<◌, ◌≤◌, ◌^◌, MatchOption, IfSome, length};
ghost use Rattle.octets.specs.Field.{octet};
ghost use Rattle.ip6_packet.specs.Chain.{is_sized, route_at, frag_of, fragment_end, end_of, chain_in, IsFirstHeader, HasNoHeader};

use crate::head::Frag6;
use crate::layout::{
    DESTINATION_OPTIONS, EXTENSION_LEN_AT, EXTENSION_NEXT_AT, EXTENSION_UNIT, FRAGMENT,
    FRAGMENT_ID_AT, FRAGMENT_LEN, FRAGMENT_OFFSET_AT, HEADER_LEN, HOP_BY_HOP, ROUTING,
    SEGMENTS_LEFT_AT,
};
use octets::{quad_at, word_at};

/// What a chain leads to.
#[derive(Clone, Copy)]
pub struct Chain {
    /// The number of the upper protocol.
    pub upper: u8,
    /// Where its octets begin, in octets from the packet's first.
    pub start: u32,
    /// The Fragment Header, where there is one.
    pub frag: Option<Frag6>,
    /// The place of the first count of segments left that is above 0.
    pub left: Option<u32>,
}

/// A Hop-by-Hop Options, a Routing or a Destination Options header.
fn is_sized(number: u8) -> bool
    ensures { result ≡ is_sized number }
{
    number == HOP_BY_HOP || number == ROUTING || number == DESTINATION_OPTIONS
}

/// The place of a count of segments left, where the header is a Routing header and the count is above 0.
fn route_at(number: u8, place: u32, count: u8) -> Option<u32>
    ensures { result ≡ route_at number place count }
{
    if number == ROUTING && count != 0 {
        Some(place)
    } else {
        None
    }
}

/// The header with a length octet at the front. None where it passes the octets.
fn first_header(octets: &[u8]) -> Option<&[u8]>
    ensures { MatchOption result (HasNoHeader octets.now) (λ header. IsFirstHeader header.now octets.now) }
{
    if octets.len() < EXTENSION_UNIT {
        return None;
    }
    let len = (usize::from(octets[EXTENSION_LEN_AT]) + 1) * EXTENSION_UNIT;
    if octets.len() < len {
        return None;
    }
    Some(&octets[..len])
}

/// The fields of a Fragment Header.
fn frag_of(header: &[u8]) -> Frag6
    requires { 8 ≤ length header.now }
    ensures { result ≡ frag_of header.now }
{
    Frag6 {
        offset: word_at(header, FRAGMENT_OFFSET_AT) >> 3,
        more: header[FRAGMENT_OFFSET_AT + 1] % 2 == 1,
        id: quad_at(header, FRAGMENT_ID_AT),
    }
}

/// The chain that ends at a Fragment Header at this place. None where the header passes the octets, or a
/// second one follows.
fn fragment_end(place: u32, octets: &[u8]) -> Option<Chain>
    requires { place < 2 ^ 31 }
    ensures value { result ≡ fragment_end place octets.now }
    ensures within { IfSome result (λ end. (place ≤ end.start) × (end.start ≤ place + length octets.now)) }
{
    if octets.len() < FRAGMENT_LEN || octets[EXTENSION_NEXT_AT] == FRAGMENT {
        return None;
    }
    Some(Chain {
        upper: octets[EXTENSION_NEXT_AT],
        start: place + FRAGMENT_LEN as u32,
        frag: Some(frag_of(octets)),
        left: None,
    })
}

/// The end of a chain at this place: a Fragment Header, or the upper protocol itself.
fn end_of(place: u32, number: u8, octets: &[u8]) -> Option<Chain>
    requires { place < 2 ^ 31 }
    ensures value { result ≡ end_of place number octets.now }
    ensures within { IfSome result (λ end. (place ≤ end.start) × (end.start ≤ place + length octets.now)) }
{
    if number == FRAGMENT {
        return fragment_end(place, octets);
    }
    Some(Chain {
        upper: number,
        start: place,
        frag: None,
        left: None,
    })
}

/// The chain in the declared payload of a packet, behind an IPv6 header that names `first` as the next.
/// None where a header passes the payload, or a second Fragment Header stands.
pub(crate) fn chain_of(first: u8, payload: &[u8]) -> Option<Chain>
    requires { length payload.now < 65536 }
    ensures value { result ≡ chain_in 40 first 0 payload.now }
    ensures within { IfSome result (λ found. (40 ≤ found.start) × (found.start ≤ 40 + length payload.now)) }
{
    let mut number = first;
    let mut place = HEADER_LEN as u32;
    let mut left = None;
    let mut rest = payload;
    while is_sized(number) {
        let header = first_header(rest)?;
        let count_at = place + SEGMENTS_LEFT_AT as u32;
        left = left.or(route_at(number, count_at, header[SEGMENTS_LEFT_AT]));
        number = header[EXTENSION_NEXT_AT];
        place += header.len() as u32;
        rest = &rest[header.len()..];
    }
    let end = end_of(place, number, rest)?;
    Some(Chain {
        left: left.or(end.left),
        ..end
    })
}

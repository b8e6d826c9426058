//! The packet that an ICMP error embeds, translated (RFC 7915, sections 4.3 and 5.3).
ghost use Rattle.std.specs.Prelude.{◌≡◌, ◌≢◌, ◌+◌, ◌^◌, ◌<◌, ◌≤◌, ◌++◌, List, ℕ, IfOk, length};
ghost use Rattle.octets.specs.Field.{word};
ghost use Rattle.l4_headers.specs.Transport.{l4_of};
ghost use Rattle.icmp_xlat.specs.Inner.{inner_tcp, inner_udp, inner_echo, echo_sum, inner_payload, echo46, echo64, change46, change64, inner_head46, inner_head64, inner46, inner64, Stands4, Stands6};
ghost use Rattle.icmp_xlat.specs.Inside.{change_in};

use crate::Ends;
use icmp_messages::{Inner4, Inner6};
use inet_sum::adjust;
use ip4_packet::Head4;
use ip6_packet::Head6;
use l4_headers::place::{ICMP_SUM_AT, IDENTIFIER_END, PORTS_END, TCP_SUM_AT, UDP_SUM_AT};
use l4_headers::{
    L4, Ports, address_sum4, address_sum6, followed_by, followed_by_cut_tcp, pseudo_sum6,
    read_ports, readdressed_sum,
};
use octets::icmp_type::{ECHO_REPLY4, ECHO_REPLY6, ECHO_REQUEST4, ECHO_REQUEST6};
use octets::protocol::ICMP6;
use octets::{Addr4, Addr6, Bytes, NoMemory, Proto, word_at};
use std::alloc::Global;
use xlat46::head46;
use xlat64::head64;

/// What changes in an embedded packet: the words outside its payload that its sum covers, their sum before and
/// after; its ports; and the type of an echo.
#[derive(Clone, Copy)]
pub(crate) struct Change {
    pub before: u64,
    pub after: u64,
    pub ports: Ports,
    pub kind: u8,
}

/// The ports and the sum at this place.
fn standing(proto: Proto, payload: &[u8], sum_at: usize) -> L4
    requires long { 8 ≤ length payload.now }
    requires stands { sum_at + 2 ≤ length payload.now }
    ensures ports { result.ports ≡ (l4_of proto payload.now).ports }
    ensures sum { result.sum ≡ word payload.now sum_at }
{
    L4 {
        ports: read_ports(proto, payload),
        sum: word_at(payload, sum_at),
        flags: 0,
    }
}

/// The octets of `front`, followed by the translated beginning of a TCP segment. Its sum changes where it stands.
fn inner_tcp(front: Bytes, payload: &[u8], change: &Change) -> Result<Bytes, NoMemory>
    requires long { 8 ≤ length payload.now }
    requires before { change.now.before ≤ 2 ^ 32 }
    requires after { change.now.after ≤ 2 ^ 32 }
    ensures { IfOk result (λ octets. octets ≡ front ++ inner_tcp payload.now (change_in change.now)) }
{
    let ports = change.ports;
    if payload.len() < TCP_SUM_AT + 2 {
        let mut octets = front;
        octets.extend(&ports.src.to_be_bytes())?;
        octets.extend(&ports.dst.to_be_bytes())?;
        octets.extend(&payload[PORTS_END..])?;
        return Ok(octets);
    }
    let l4 = standing(Proto::Tcp, payload, TCP_SUM_AT);
    let sum = readdressed_sum(Proto::Tcp, &l4, change.before, change.after, ports);
    followed_by_cut_tcp(front, payload, ports, sum)
}

/// The octets of `front`, followed by the translated beginning of a UDP datagram. A missing sum stays missing.
fn inner_udp(front: Bytes, payload: &[u8], change: &Change) -> Result<Bytes, NoMemory>
    requires long { 8 ≤ length payload.now }
    requires before { change.now.before ≤ 2 ^ 32 }
    requires after { change.now.after ≤ 2 ^ 32 }
    ensures { IfOk result (λ octets. octets ≡ front ++ inner_udp payload.now (change_in change.now)) }
{
    let l4 = standing(Proto::Udp, payload, UDP_SUM_AT);
    let sum = if l4.sum == 0 {
        0
    } else {
        readdressed_sum(Proto::Udp, &l4, change.before, change.after, change.ports)
    };
    followed_by(front, Proto::Udp, payload, change.ports, sum)
}

/// The sum of an echo with its new type and identifier.
#[tactic(auto, unfolding(crate::specs::Inner::echo_sum))]
fn echo_sum(payload: &[u8], change: &Change) -> u16
    requires long { 8 ≤ length payload.now }
    requires before { change.now.before ≤ 2 ^ 32 }
    requires after { change.now.after ≤ 2 ^ 32 }
    ensures { result ≡ echo_sum payload.now (change_in change.now) }
{
    let gone = u64::from(word_at(payload, 0)) + u64::from(word_at(payload, PORTS_END));
    let come = u64::from(change.kind) * 256 + u64::from(change.ports.src);
    let old = word_at(payload, ICMP_SUM_AT);
    adjust(old, change.before + gone, change.after + come)
}

/// The octets of `front`, followed by the translated beginning of an echo.
fn inner_echo(front: Bytes, payload: &[u8], change: &Change) -> Result<Bytes, NoMemory>
    requires long { 8 ≤ length payload.now }
    requires before { change.now.before ≤ 2 ^ 32 }
    requires after { change.now.after ≤ 2 ^ 32 }
    ensures { IfOk result (λ octets. octets ≡ front ++ inner_echo payload.now (change_in change.now)) }
{
    let identifier = change.ports.src;
    let sum = echo_sum(payload, change);
    let mut octets = front;
    octets.push(change.kind)?;
    octets.push(0)?;
    octets.extend(&sum.to_be_bytes())?;
    octets.extend(&identifier.to_be_bytes())?;
    octets.extend(&payload[IDENTIFIER_END..])?;
    Ok(octets)
}

/// The octets of `front`, followed by the translated beginning of an embedded payload.
fn inner_payload(
    front: Bytes,
    proto: Proto,
    payload: &[u8],
    change: &Change,
) -> Result<Bytes, NoMemory>
    requires long { 8 ≤ length payload.now }
    requires before { change.now.before ≤ 2 ^ 32 }
    requires after { change.now.after ≤ 2 ^ 32 }
    ensures { IfOk result (λ octets. octets ≡ front ++ inner_payload proto payload.now (change_in change.now)) }
{
    match proto {
        Proto::Tcp => inner_tcp(front, payload, change),
        Proto::Udp => inner_udp(front, payload, change),
        Proto::Icmp => inner_echo(front, payload, change),
    }
}

/// The type of an echo of ICMPv4 in ICMPv6.
fn echo46(kind: u8) -> u8
    ensures { result ≡ echo46 kind }
{
    if kind == ECHO_REQUEST4 {
        ECHO_REQUEST6
    } else {
        ECHO_REPLY6
    }
}

/// The type of an echo of ICMPv6 in ICMPv4.
fn echo64(kind: u8) -> u8
    ensures { result ≡ echo64 kind }
{
    if kind == ECHO_REQUEST6 {
        ECHO_REQUEST4
    } else {
        ECHO_REPLY4
    }
}

/// What changes in a packet that an ICMPv4 error embeds.
fn change46(inner: &Inner4, ends: &Ends<Addr6>) -> Change
    requires { Stands4 inner.now }
    ensures change { change_in result ≡ change46 inner.now ends.now inner.now.proto }
    ensures before { result.before ≤ 2 ^ 32 }
    ensures after { result.after ≤ 2 ^ 32 }
{
    let head = inner.head;
    let ports = ends.ports;
    match inner.proto {
        Proto::Icmp => {
            let len = u32::from(head.total - u16::from(head.head_len));
            Change {
                before: 0,
                after: pseudo_sum6(ends.inner_src, ends.inner_dst, ICMP6, len),
                ports,
                kind: echo46(inner.payload.as_slice()[0]),
            }
        }
        Proto::Tcp | Proto::Udp => Change {
            before: address_sum4(head.src) + address_sum4(head.dst),
            after: address_sum6(ends.inner_src) + address_sum6(ends.inner_dst),
            ports,
            kind: 0,
        },
    }
}

/// What changes in a packet that an ICMPv6 error embeds.
fn change64(inner: &Inner6, ends: &Ends<Addr4>) -> Change
    requires { Stands6 inner.now }
    ensures change { change_in result ≡ change64 inner.now ends.now inner.now.proto }
    ensures before { result.before ≤ 2 ^ 32 }
    ensures after { result.after ≤ 2 ^ 32 }
{
    let head = inner.head;
    let ports = ends.ports;
    match inner.proto {
        Proto::Icmp => {
            let len = u32::from(head.length);
            Change {
                before: pseudo_sum6(head.src, head.dst, ICMP6, len),
                after: 0,
                ports,
                kind: echo64(inner.payload.as_slice()[0]),
            }
        }
        Proto::Tcp | Proto::Udp => Change {
            before: address_sum6(head.src) + address_sum6(head.dst),
            after: address_sum4(ends.inner_src) + address_sum4(ends.inner_dst),
            ports,
            kind: 0,
        },
    }
}

/// A declared total length, which its field of 16 bits holds.
fn declared(total: u16) -> u16
    ensures value { result ≡ total }
    ensures fits { result < 65536 }
{
    total
}

/// The header of the embedded packet. Its TTL is kept, whatever it is.
fn inner_head46(inner: &Inner4, ends: &Ends<Addr6>) -> Head6
    requires { Stands4 inner.now }
    ensures value { result ≡ inner_head46 inner.now ends.now }
    ensures fits { inner.now.head.total < 65536 }
{
    let total = declared(inner.head.total);
    let lasting = Head4 {
        ttl: 1,
        total,
        ..inner.head
    };
    let mut head = head46(&lasting, ends.inner_src, ends.inner_dst);
    head.hop = inner.head.ttl;
    head
}

/// The header of the embedded packet. Its hop limit is kept, whatever it is.
fn inner_head64(inner: &Inner6, ends: &Ends<Addr4>) -> Head4
    ensures { result ≡ inner_head64 inner.now ends.now }
{
    let lasting = Head6 {
        hop: 1,
        ..inner.head
    };
    let mut head = head64(&lasting, ends.inner_src, ends.inner_dst, 0);
    head.ttl = inner.head.hop;
    head
}

/// The packet that an ICMPv4 error embeds, translated (RFC 7915, section 4.3).
pub(crate) fn inner46(alloc: Global, inner: &Inner4, ends: &Ends<Addr6>) -> Result<Bytes, NoMemory>
    requires { Stands4 inner.now }
    ensures { IfOk result (λ octets. octets ≡ inner46 inner.now ends.now) }
{
    let front = inner_head46(inner, ends).write_front(alloc, inner.payload.as_slice().len())?;
    let change = change46(inner, ends);
    inner_payload(front, inner.proto, inner.payload.as_slice(), &change)
}

/// The packet that an ICMPv6 error embeds, translated (RFC 7915, section 5.3).
pub(crate) fn inner64(alloc: Global, inner: &Inner6, ends: &Ends<Addr4>) -> Result<Bytes, NoMemory>
    requires { Stands6 inner.now }
    ensures { IfOk result (λ octets. octets ≡ inner64 inner.now ends.now) }
{
    let front = inner_head64(inner, ends).write_front(alloc, inner.payload.as_slice().len())?;
    let change = change64(inner, ends);
    inner_payload(front, inner.proto, inner.payload.as_slice(), &change)
}

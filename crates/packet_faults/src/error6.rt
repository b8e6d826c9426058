//! ICMP errors over IPv6 (RFC 4443, section 2.4).

ghost use Rattle.std.specs.Prelude.{◌≡◌, ◌≤◌, ◌↔◌, IsTrue, List, ℕ, length, None, IfOk, IfSome};
ghost use Rattle.ip6_packet.specs.declared.head.Head6.{Head6 as Header};
ghost use Rattle.ip6_packet.specs.Grammar.{payload_of6, Is6};
ghost use Rattle.ip6_packet.specs.Causes.{HasNoHeaderCause6};
ghost use Rattle.packet_faults.specs.Error.{IsError6, IsUnanswered6, notice, embedded6, error_head6, error_message6, error6};

use crate::notice::Notice;
use icmp_messages::Icmp6;
use ip6_packet::{HEADER_LEN, Head6, is_no_destination};
use octets::icmp_type::LEAST_INFORMATIONAL6;
use octets::protocol::ICMP6;
use octets::{Addr6, Bytes, NoMemory};
use std::alloc::Global;

/// Octets in front of the packet that an error embeds: its header, and the front of its message.
const BEFORE: usize = HEADER_LEN + 8;
/// The most octets of an error: the least MTU (RFC 4443, section 2.4).
const MAX_LEN: usize = 1280;
/// The hop limit of an error.
const HOP: u8 = 64;

/// An ICMPv6 error by its type.
fn is_error(proto: u8, payload: &[u8]) -> bool
    ensures { IsTrue result ↔ IsError6 proto payload.now }
{
    proto == ICMP6 && !payload.is_empty() && payload[0] < LEAST_INFORMATIONAL6
}

/// No error answers the packet: an ICMP error, a later fragment, or a source that is a group or the
/// unspecified address.
fn is_unanswered(head: &Head6, payload: &[u8]) -> bool
    ensures { IsTrue result ↔ IsUnanswered6 head.now payload.now }
{
    is_error(head.upper, payload) || head.fragment_offset() != 0 || is_no_destination(head.src)
}

/// What an error embeds of the packet with these headers.
fn embedded<'a>(head: &Head6, packet: &'a [u8]) -> &'a [u8]
    ensures part { result.now ≡ embedded6 head.now packet.now }
    ensures bounded { length result.now ≤ 1232 }
{
    let whole = head.trimmed(packet);
    &whole[..(MAX_LEN - BEFORE).min(whole.len())]
}

/// The ICMPv6 error that says this of a packet with these headers (RFC 4443, section 2.4), from `src` to the packet's source. It
/// embeds the packet as it was received, without octets after its declared length, cut so that the error has at most 1280 octets.
///
/// None exactly where no error answers: an ICMP error, a later fragment, or a packet from a group or the unspecified address.
pub fn answer6(
    alloc: Global,
    head: &Head6,
    packet: &[u8],
    what: Notice,
    src: Addr6,
) -> Result<Option<Bytes>, NoMemory>
    requires is { Is6 head.now (payload_of6 head.now packet.now) packet.now }
    requires fine { HasNoHeaderCause6 packet.now }
    ensures none { IfOk result (λ error. (error ≡ None) ↔ IsUnanswered6 head.now (payload_of6 head.now packet.now)) }
    ensures error { IfOk result (λ error. IfSome error (λ octets. octets ≡ error6 head.now packet.now what src)) }
    ensures bounded { IfOk result (λ error. IfSome error (λ octets. length octets ≤ 1280)) }
    // The error is a packet that the header reader accepts.
    ensures accepted { IfOk result (λ error. IfSome error (λ octets. HasNoHeaderCause6 octets)) }
{
    if is_unanswered(head, head.payload(packet)) {
        return Ok(None);
    }
    let mut body = Bytes::new(alloc);
    body.extend(embedded(head, packet))?;
    let message = Icmp6 {
        kind: what.kind,
        code: what.code,
        rest: what.rest,
        body,
    }
    .write(alloc, src, head.src)?;
    let message = message.as_slice();
    let header = Head6 {
        class: 0,
        hop: HOP,
        src,
        dst: head.src,
        upper: ICMP6,
        start: HEADER_LEN as u32,
        length: message.len() as u16,
        frag: None,
        left: None,
    };
    Ok(Some(header.write(alloc, message)?))
}

/// The ICMPv6 error of this type, code and four octets that answers a packet (RFC 4443, section 2.4), from `src` to the packet's
/// source, as `answer6` makes it.
pub fn fault6(
    alloc: Global,
    packet: &[u8],
    kind: u8,
    code: u8,
    rest: u32,
    src: Addr6,
) -> Result<Option<Bytes>, NoMemory>
    requires { HasNoHeaderCause6 packet.now }
    ensures none { (h : Header) (payload : List ℕ) → Is6 h payload packet.now
        → IfOk result (λ error. (error ≡ None) ↔ IsUnanswered6 h payload) }
    ensures error { (h : Header) (payload : List ℕ) → Is6 h payload packet.now
        → IfOk result (λ error. IfSome error (λ octets. octets ≡ error6 h packet.now (notice kind code rest) src)) }
    ensures bounded { IfOk result (λ error. IfSome error (λ octets. length octets ≤ 1280)) }
    // The error is a packet that the header reader accepts.
    ensures accepted { IfOk result (λ error. IfSome error (λ octets. HasNoHeaderCause6 octets)) }
{
    let head = Head6::accepted(packet);
    answer6(alloc, &head, packet, Notice { kind, code, rest }, src)
}

//! ICMP errors over IPv4 (RFC 792; RFC 1122, section 3.2.2).

ghost use Rattle.std.specs.Prelude.{◌≡◌, ◌≤◌, ◌↔◌, IsTrue, List, ℕ, length, None, IfOk, IfSome};
ghost use Rattle.ip4_packet.specs.declared.head.Head4.{Head4 as Header};
ghost use Rattle.ip4_packet.specs.Grammar.{payload_of4, Is4};
ghost use Rattle.ip4_packet.specs.Causes.{HasNoHeaderCause4};
ghost use Rattle.packet_faults.specs.Error.{IsError4, IsUnanswered4, notice, embedded4, error_head4, error_message4, error4};

use crate::notice::{Notice, Origin};
use icmp_messages::Icmp4;
use ip4_packet::{HEADER_LEN, Head4, is_no_destination};
use octets::icmp_type::{
    PARAMETER_PROBLEM4, REDIRECT4, SOURCE_QUENCH4, TIME_EXCEEDED4, UNREACHABLE4,
};
use octets::protocol::ICMP4;
use octets::{Addr4, Bytes, NoMemory};
use std::alloc::Global;

/// Octets in front of the packet that an error embeds: its header, and the front of its message.
const BEFORE: usize = HEADER_LEN + 8;
/// The most octets of an error (RFC 1812, section 4.3.2.3).
const MAX_LEN: usize = 576;
/// The TTL of an error.
const TTL: u8 = 64;

/// An ICMP error by its type.
fn is_error(proto: u8, payload: &[u8]) -> bool
    ensures { IsTrue result ↔ IsError4 proto payload.now }
{
    proto == ICMP4
        && !payload.is_empty()
        && matches!(
            payload[0],
            UNREACHABLE4 | SOURCE_QUENCH4 | REDIRECT4 | TIME_EXCEEDED4 | PARAMETER_PROBLEM4
        )
}

/// No error answers the packet: an ICMP error, a later fragment, or a source that is a group, the broadcast
/// address or the unspecified one.
fn is_unanswered(head: &Head4, payload: &[u8]) -> bool
    ensures { IsTrue result ↔ IsUnanswered4 head.now payload.now }
{
    is_error(head.proto, payload) || head.offset != 0 || is_no_destination(head.src)
}

/// What an error embeds of the packet with this header.
fn embedded<'a>(head: &Head4, packet: &'a [u8]) -> &'a [u8]
    ensures part { result.now ≡ embedded4 head.now packet.now }
    ensures bounded { length result.now ≤ 548 }
{
    let whole = head.trimmed(packet);
    &whole[..(MAX_LEN - BEFORE).min(whole.len())]
}

/// The ICMPv4 error that says this of a packet with this header (RFC 792), from `from` to the packet's source. It embeds the packet
/// as it was received, without octets after its declared length, cut so that the error has at most 576 octets.
///
/// None exactly where no error answers: an ICMP error, a later fragment, or a packet from a group, the broadcast address or the
/// unspecified address (RFC 1122, section 3.2.2).
pub fn answer4(
    alloc: Global,
    head: &Head4,
    packet: &[u8],
    what: Notice,
    from: Origin,
) -> Result<Option<Bytes>, NoMemory>
    requires is { Is4 head.now (payload_of4 head.now packet.now) packet.now }
    requires fine { HasNoHeaderCause4 packet.now }
    ensures none { IfOk result (λ error. (error ≡ None) ↔ IsUnanswered4 head.now (payload_of4 head.now packet.now)) }
    ensures error { IfOk result (λ error. IfSome error (λ octets. octets ≡ error4 head.now packet.now what from.addr from.id)) }
    ensures bounded { IfOk result (λ error. IfSome error (λ octets. length octets ≤ 576)) }
    // The error is a packet that the header reader accepts.
    ensures accepted { IfOk result (λ error. IfSome error (λ octets. HasNoHeaderCause4 octets)) }
{
    if is_unanswered(head, head.payload(packet)) {
        return Ok(None);
    }
    let mut body = Bytes::new(alloc);
    body.extend(embedded(head, packet))?;
    let message = Icmp4 {
        kind: what.kind,
        code: what.code,
        rest: what.rest,
        body,
    }
    .write(alloc)?;
    let message = message.as_slice();
    let header = Head4 {
        tos: 0,
        id: from.id,
        df: false,
        mf: false,
        offset: 0,
        ttl: TTL,
        proto: ICMP4,
        src: from.addr,
        dst: head.src,
        head_len: HEADER_LEN as u8,
        total: (HEADER_LEN + message.len()) as u16,
        routed: false,
    };
    Ok(Some(header.write(alloc, message)?))
}

/// The ICMPv4 error of this type, code and four octets that answers a packet (RFC 792), from `src` to the packet's source, with the
/// identification `id`, as `answer4` makes it.
pub fn fault4(
    alloc: Global,
    packet: &[u8],
    kind: u8,
    code: u8,
    rest: u32,
    src: Addr4,
    id: u16,
) -> Result<Option<Bytes>, NoMemory>
    requires { HasNoHeaderCause4 packet.now }
    ensures none { (h : Header) (payload : List ℕ) → Is4 h payload packet.now
        → IfOk result (λ error. (error ≡ None) ↔ IsUnanswered4 h payload) }
    ensures error { (h : Header) (payload : List ℕ) → Is4 h payload packet.now
        → IfOk result (λ error. IfSome error (λ octets. octets ≡ error4 h packet.now (notice kind code rest) src id)) }
    ensures bounded { IfOk result (λ error. IfSome error (λ octets. length octets ≤ 576)) }
    // The error is a packet that the header reader accepts.
    ensures accepted { IfOk result (λ error. IfSome error (λ octets. HasNoHeaderCause4 octets)) }
{
    let head = Head4::accepted(packet);
    let what = Notice { kind, code, rest };
    answer4(alloc, &head, packet, what, Origin { addr: src, id })
}

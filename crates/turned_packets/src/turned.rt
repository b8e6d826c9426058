//! A turned packet as a whole.

ghost use Rattle.std.specs.Prelude.{◌≡◌, ◌≤◌, ◌+◌, ◌++◌, IfOk, length};
ghost use Rattle.octets.specs.declared.address.Addr4.{Addr4 as Address};
ghost use Rattle.ip4_packet.specs.Grammar.{payload_of4};
ghost use Rattle.icmp_messages.specs.Message.{message4};
ghost use Rattle.packets.specs.Packet4.{IsContent4, IsPacket4};
ghost use Rattle.turned_packets.specs.declared.ends.End.TheVariants.{Source as TheSource};
ghost use Rattle.turned_packets.specs.Turned.{turned_head, turned_query, turned_error, turned_payload, turned, turned_out, turned_in};
ghost use Rattle.turned_packets.specs.Inside.{new_end_in};

use crate::embedded::turned_embedded;
use crate::ends::{End, NewEnd};
use crate::segment::turned_segment;
use icmp_messages::{Icmp4, Inner4};
use ip4_packet::{HEADER_LEN, Head4};
use octets::{Addr4, Bytes, NoMemory};
use packets::{Content4, Packet4};
use std::alloc::Global;

/// The header of a turned packet with a payload of this length.
fn turned_head(new: &NewEnd, head: &Head4, len: u16) -> Head4
    requires alive { new.now.end ≡ TheSource → 1 ≤ head.now.ttl }
    requires fits { len ≤ 65515 }
    ensures { result ≡ turned_head (new_end_in new.now) head.now len }
{
    let ttl = match new.end {
        End::Source => head.ttl - 1,
        End::Destination => head.ttl,
    };
    Head4 {
        ttl,
        head_len: HEADER_LEN as u8,
        total: HEADER_LEN as u16 + len,
        ..new.end.with_address(new.addr, head)
    }
}

/// A turned query.
fn turned_query(alloc: Global, new: &NewEnd, message: &Icmp4) -> Result<Bytes, NoMemory>
    ensures { IfOk result (λ octets. octets ≡ message4 (turned_query (new_end_in new.now) message.now)) }
{
    let rest = u32::from(new.port) << 16 | message.rest & 0xffff;
    let turned = Icmp4 {
        kind: message.kind,
        code: message.code,
        rest,
        body: message.body.copy(alloc)?,
    };
    turned.write(alloc)
}

/// A turned error.
fn turned_error(
    alloc: Global,
    new: &NewEnd,
    message: &Icmp4,
    inner: &Inner4,
) -> Result<Bytes, NoMemory>
    requires header { 20 ≤ inner.now.head.head_len }
    requires long { 8 ≤ length inner.now.payload }
    requires stands { inner.now.head.head_len + length inner.now.payload ≤ length message.now.body }
    ensures { IfOk result (λ octets. octets ≡ message4 (turned_error (new_end_in new.now) message.now inner.now)) }
{
    let turned = Icmp4 {
        kind: message.kind,
        code: message.code,
        rest: message.rest,
        body: turned_embedded(alloc, &new.embedded(), inner, message.body.as_slice())?,
    };
    turned.write(alloc)
}

/// The octets of `front`, followed by what a packet with this header carries, turned.
fn turned_payload(
    alloc: Global,
    front: Bytes,
    new: &NewEnd,
    packet: &Packet4,
    payload: &[u8],
) -> Result<Bytes, NoMemory>
    requires { IsContent4 packet.now.head payload.now packet.now.content }
    ensures { IfOk result (λ octets. octets ≡ front ++ turned_payload (new_end_in new.now) packet.now.head payload.now packet.now.content) }
{
    let mut octets = front;
    match &packet.content {
        Content4::Segment { proto, l4 } => {
            return turned_segment(octets, new, &packet.head, *proto, l4, payload);
        }
        Content4::Later { .. } => octets.extend(payload)?,
        Content4::Query { message, .. } => {
            octets.extend(turned_query(alloc, new, message)?.as_slice())?;
        }
        Content4::Error { message, inner, .. } => {
            octets.extend(turned_error(alloc, new, message, inner)?.as_slice())?;
        }
    }
    Ok(octets)
}

/// The turned packet.
fn turned(alloc: Global, new: &NewEnd, packet: &Packet4, octets: &[u8]) -> Result<Bytes, NoMemory>
    requires is { IsPacket4 packet.now octets.now }
    requires alive { new.now.end ≡ TheSource → 1 ≤ packet.now.head.ttl }
    ensures { IfOk result (λ written. written ≡ turned (new_end_in new.now) packet.now octets.now) }
{
    let payload = packet.head.payload(octets);
    let head = turned_head(new, &packet.head, payload.len() as u16);
    let front = head.write_front(alloc, payload.len())?;
    turned_payload(alloc, front, new, packet, payload)
}

/// The packet in these octets as an edge sends it to itself: its source is this address and port, and its TTL one less
/// (RFC 4787, section 6). Of an ICMP error the source is this address, and the embedded destination this address and port
/// (RFC 5508, section 5).
///
/// The packet is written without options, reserved flag, and octets after its total length. A query has the port as
/// its identifier, and a later fragment has no port to replace. Header sum and ICMP sum are made anew; any other changes
/// by the words that changed (RFC 1624), so that a wrong one stays wrong and a missing one missing. All else of a message
/// is as it was, also what an error holds behind its embedded packet.
pub fn turned_out(
    alloc: Global,
    packet: &Packet4,
    octets: &[u8],
    from: Addr4,
    port: u16,
) -> Result<Bytes, NoMemory>
    requires is { IsPacket4 packet.now octets.now }
    requires alive { 1 ≤ packet.now.head.ttl }
    ensures { IfOk result (λ written. written ≡ turned_out from port packet.now octets.now) }
{
    let new = NewEnd {
        end: End::Source,
        addr: from,
        port,
    };
    turned(alloc, &new, packet, octets)
}

/// The packet in these octets as a host of the edge receives it: its destination is this address and port, and its TTL
/// stays, whatever it is. Of an ICMP error the destination is this address, and the embedded source this address and
/// port. It is written as `turned_out` says.
pub fn turned_in(
    alloc: Global,
    packet: &Packet4,
    octets: &[u8],
    to: Addr4,
    port: u16,
) -> Result<Bytes, NoMemory>
    requires { IsPacket4 packet.now octets.now }
    ensures { IfOk result (λ written. written ≡ turned_in to port packet.now octets.now) }
{
    let new = NewEnd {
        end: End::Destination,
        addr: to,
        port,
    };
    turned(alloc, &new, packet, octets)
}

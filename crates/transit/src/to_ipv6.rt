//! IPv4 packets to IPv6 (after RFC 7915, section 4).
ghost use Rattle.std.specs.Prelude.{◌≡◌, ◌≢◌, ◌+◌, ◌<◌, ◌≤◌, length, Some, IfOk, false};
ghost use Rattle.ip4_packet.specs.Grammar.{payload_of4};
ghost use Rattle.icmp_messages.specs.declared.inner4.Inner4.{Inner4 as Inner};
ghost use Rattle.icmp_messages.specs.Message.{IsIcmp4};
ghost use Rattle.icmp_messages.specs.Inner.{IsInner4};
ghost use Rattle.ip6_packet.specs.Written.{IsInRange};
ghost use Rattle.xlat46.specs.Head.{translated};
ghost use Rattle.ip4_packet.specs.Fragment.{is_fragment};
ghost use Rattle.icmp_messages.specs.declared.table.Row.{Row as AnyRow};
ghost use Rattle.icmp_messages.specs.declared.table.Rest.TheVariants.{Query as QueryRest};
ghost use Rattle.icmp_messages.specs.Table.{table46, row_of};
ghost use Rattle.icmp_xlat.specs.Icmp46.{query46, with_message46};
ghost use Rattle.icmp_messages.specs.Extension.{embedded46};
ghost use Rattle.icmp_messages.specs.Rows.{HasNoRow46, EmbedsOne46};
ghost use Rattle.packets.specs.Packet4.{IsPacket4};
ghost use Rattle.transit.specs.Passage46.{is_message4, is_rigid4, translation46, AreCutOf, IsPassage46};

use crate::passage::Passage;
use icmp_xlat::{Ends, Passing, error46, query46, with_message46};
use ip4_packet::Head4;
use ip6_packet::Head6;
use l4_headers::Segment;
use octets::{Addr6, Bytes, NoMemory, Parcels};
use packet_faults::cut6;
use packets::{Content4, Packet4};
use std::alloc::Global;
use xlat46::{head46, packet46};

/// Whether the packet may not be cut: it is whole and says "don't fragment", or it is an ICMP message.
fn is_rigid(packet: &Packet4) -> bool
    ensures { result ≡ is_rigid4 packet.now }
{
    let message = matches!(
        packet.content,
        Content4::Query { .. } | Content4::Error { .. }
    );
    (!packet.head.is_fragment() && packet.head.df) || message
}

/// The packet's payload.
fn payload_in<'a>(packet: &Packet4, octets: &'a [u8]) -> &'a [u8]
    requires { IsPacket4 packet.now octets.now }
    ensures value { result.now ≡ payload_of4 packet.now.head octets.now }
    ensures total { packet.now.head.total ≡ packet.now.head.head_len + length result.now }
    ensures fits { length result.now ≤ 65515 }
{
    packet.head.payload(octets)
}

/// The packet over IPv6.
fn translated(
    alloc: Global,
    passing: &Passing<Addr6>,
    packet: &Packet4,
    octets: &[u8],
) -> Result<Bytes, NoMemory>
    requires is { IsPacket4 packet.now octets.now }
    requires alive { 1 ≤ packet.now.head.ttl }
    ensures { IfOk result (λ written. translation46 passing.now.mtus packet.now.head
        (payload_of4 packet.now.head octets.now) passing.now.ends packet.now.content ≡ Some written) }
{
    let head = &packet.head;
    let ends = &passing.ends;
    let payload = payload_in(packet, octets);
    match &packet.content {
        Content4::Segment { proto, l4 } => {
            let segment = Segment {
                proto: *proto,
                header: Some(*l4),
                payload,
            };
            packet46(alloc, head, &segment, ends)
        }
        Content4::Later { proto } => {
            let segment = Segment {
                proto: *proto,
                header: None,
                payload,
            };
            packet46(alloc, head, &segment, ends)
        }
        Content4::Query { message, row } => {
            let query = query46(alloc, message, *row, ends)?;
            with_message46(alloc, head, &query, ends)
        }
        Content4::Error {
            message,
            row,
            inner,
        } => {
            let error = error46(alloc, passing, message, *row, inner)?;
            with_message46(alloc, head, &error, ends)
        }
    }
}

/// The translated header. Its numbers fit their fields.
fn header(packet: &Packet4, ends: &Ends<Addr6>) -> Head6
    requires alive { 1 ≤ packet.now.head.ttl }
    requires lengths { packet.now.head.head_len ≤ packet.now.head.total }
    ensures value { result ≡ translated packet.now.head ends.now.src ends.now.dst }
    ensures in_range { IsInRange result }
    ensures id { packet.now.head.id < 65536 }
    ensures total { packet.now.head.total < 65536 }
{
    let Head4 {
        id: _id,
        total: _total,
        ..
    } = packet.head;
    let header = head46(&packet.head, ends.src, ends.dst);
    let Head6 {
        class: _class,
        src: Addr6(_src),
        dst: Addr6(_dst),
        length: _length,
        ..
    } = header;
    header
}

/// The pieces of a translated packet that is too long and may be cut.
fn cut(
    alloc: Global,
    passing: &Passing<Addr6>,
    packet: &Packet4,
    octets: &[u8],
    written: &[u8],
) -> Result<Parcels, NoMemory>
    requires is { IsPacket4 packet.now octets.now }
    requires alive { 1 ≤ packet.now.head.ttl }
    requires written { translation46 passing.now.mtus packet.now.head
        (payload_of4 packet.now.head octets.now) passing.now.ends packet.now.content ≡ Some written.now }
    requires no_message { is_message4 packet.now.content ≡ false }
    requires longer { passing.now.mtus.mtu6 < length written.now }
    ensures { IfOk result (AreCutOf written.now passing.now.mtus.mtu6 packet.now.head.id) }
{
    // What is cut has this header, and a payload of this length.
    let _payload = payload_in(packet, octets);
    let _header = header(packet, &passing.ends);
    let id = u32::from(packet.head.id);
    cut6(alloc, written, passing.mtus.mtu6, id)
}

/// What becomes of the packet in these octets at a node that translates it to IPv6 by this. Of a flow the ports are the
/// packet's new ones, of a query the source port is its identifier, and of an error they are those of the packet that it
/// embeds. A translation that is longer than `mtu6` octets is cut, and its pieces have the identification of the packet; a
/// whole packet with "don't fragment", and a query, are `TooBig` instead. A packet whose TTL is 0 or 1 is `Spent`.
pub fn passage46(
    alloc: Global,
    passing: &Passing<Addr6>,
    packet: &Packet4,
    octets: &[u8],
) -> Result<Passage, NoMemory>
    requires { IsPacket4 packet.now octets.now }
    ensures { IfOk result (λ passage. IsPassage46 passing.now.mtus packet.now
        (payload_of4 packet.now.head octets.now) passing.now.ends passage) }
{
    if packet.head.ttl <= 1 {
        return Ok(Passage::Spent);
    }
    let written = translated(alloc, passing, packet, octets)?;
    if written.as_slice().len() <= usize::from(passing.mtus.mtu6) {
        return Ok(Passage::Sent(written));
    }
    if is_rigid(packet) {
        return Ok(Passage::TooBig);
    }
    let pieces = cut(alloc, passing, packet, octets, written.as_slice())?;
    Ok(Passage::Cut(pieces))
}

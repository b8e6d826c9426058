//! IPv6 packets to IPv4 (after RFC 7915, section 5).
ghost use Rattle.std.specs.Prelude.{◌≡◌, ◌≢◌, ◌<◌, ◌≤◌, ◌↔◌, length, Bool, IsTrue, Some, IfOk};
ghost use Rattle.ip6_packet.specs.Fragment.{fragment_offset, IsFragment6};
ghost use Rattle.ip6_packet.specs.Grammar.{payload_of6};
ghost use Rattle.icmp_messages.specs.declared.inner6.Inner6.{Inner6 as Inner};
ghost use Rattle.icmp_messages.specs.Inner.{IsInner6};
ghost use Rattle.icmp_messages.specs.declared.table.Row.{Row as AnyRow};
ghost use Rattle.icmp_messages.specs.declared.table.Rest.TheVariants.{Query as QueryRest};
ghost use Rattle.icmp_messages.specs.Table.{table64, row_of};
ghost use Rattle.icmp_xlat.specs.Icmp64.{query64, with_message64};
ghost use Rattle.icmp_messages.specs.Extension.{embedded64};
ghost use Rattle.icmp_messages.specs.Rows.{HasNoRow64, EmbedsOne64};
ghost use Rattle.packets.specs.Packet6.{IsPacket6};
ghost use Rattle.transit.specs.Passage64.{HasRoom, error_packet64, translation64, IsPassage64};

use crate::passage::Passage;
use icmp_xlat::{Passing, error64, query64, with_message64};
use l4_headers::Segment;
use octets::{Addr4, Bytes, NoMemory};
use packets::{Content6, Packet6};
use std::alloc::Global;
use xlat64::packet64;

/// The most octets behind an IPv4 header.
const MOST_PAYLOAD: u16 = 65_515;

/// Whether an IPv4 packet has room for the payload.
fn has_room(packet: &Packet6) -> bool
    ensures { IsTrue result ↔ HasRoom packet.now.head packet.now.content }
{
    match packet.content {
        Content6::Segment { .. } | Content6::Later { .. } => packet.head.length <= MOST_PAYLOAD,
        Content6::Query { .. } | Content6::Error { .. } => true,
    }
}

/// The packet's payload.
fn payload_in<'a>(packet: &Packet6, octets: &'a [u8]) -> &'a [u8]
    requires { (at_relay : Bool) × IsPacket6 at_relay packet.now octets.now }
    ensures value { result.now ≡ payload_of6 packet.now.head octets.now }
    ensures length_is { packet.now.head.length ≡ length result.now }
    ensures offset { fragment_offset packet.now.head.frag < 8192 }
{
    packet.head.payload(octets)
}

/// The packet over IPv4.
fn translated(
    alloc: Global,
    passing: &Passing<Addr4>,
    packet: &Packet6,
    octets: &[u8],
) -> Result<Bytes, NoMemory>
    requires is { (at_relay : Bool) × IsPacket6 at_relay packet.now octets.now }
    requires alive { 1 ≤ packet.now.head.hop }
    requires room { HasRoom packet.now.head packet.now.content }
    ensures { IfOk result (λ written. translation64 passing.now packet.now.head
        (payload_of6 packet.now.head octets.now) packet.now.content ≡ Some written) }
{
    let head = &packet.head;
    let ends = &passing.ends;
    let payload = payload_in(packet, octets);
    match &packet.content {
        Content6::Segment { proto, l4 } => {
            let segment = Segment {
                proto: *proto,
                header: Some(*l4),
                payload,
            };
            packet64(alloc, head, &segment, ends, passing.id)
        }
        Content6::Later { proto } => {
            let segment = Segment {
                proto: *proto,
                header: None,
                payload,
            };
            packet64(alloc, head, &segment, ends, passing.id)
        }
        Content6::Query { message, row } => {
            let query = query64(alloc, message, *row, ends)?;
            with_message64(alloc, head, &query, ends, passing.id)
        }
        Content6::Error {
            message,
            row,
            inner,
        } => {
            let error = error64(alloc, passing, message, *row, inner)?;
            with_message64(alloc, head, &error, ends, passing.id)
        }
    }
}

/// What becomes of the packet in these octets at a node that translates it to IPv4 by this. Of a flow the ports are the
/// packet's new ones, of a query the source port is its identifier, and of an error they are those of the packet that it
/// embeds. A translation that is longer than `mtu4` octets is `TooBig`, and a packet whose hop limit is 0 or 1 is `Spent`.
pub fn passage64(
    alloc: Global,
    passing: &Passing<Addr4>,
    packet: &Packet6,
    octets: &[u8],
) -> Result<Passage, NoMemory>
    requires { (at_relay : Bool) × IsPacket6 at_relay packet.now octets.now }
    ensures { IfOk result (λ passage. IsPassage64 passing.now packet.now (payload_of6 packet.now.head octets.now) passage) }
{
    if packet.head.hop <= 1 {
        return Ok(Passage::Spent);
    }
    if !has_room(packet) {
        return Ok(Passage::TooBig);
    }
    let written = translated(alloc, passing, packet, octets)?;
    if written.as_slice().len() > usize::from(passing.mtus.mtu4) {
        return Ok(Passage::TooBig);
    }
    Ok(Passage::Sent(written))
}

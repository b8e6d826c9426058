//! ICMP messages, translated.

ghost use Rattle.std.specs.Prelude.{◌≡◌, IsTrue, false, None};
ghost use Rattle.icmp_xlat.specs.Icmp46.{IsAccepted46};
ghost use Rattle.icmp_messages.specs.Rows.{EmbedsOne46, EmbedsOne64};
ghost use Rattle.icmp_xlat.specs.Icmp64.{IsAccepted64};
ghost use Rattle.icmp_messages.specs.Table.{row_of, table46, table64};

use crate::drawn::{mtus, ports};
use crate::sent::{say_fault, say_unmet};
use icmp_messages::{Icmp4, Icmp6, Rest, read_inner4, read_inner6, row46, row64};
use icmp_xlat::{Ends, icmp46, icmp64};
use ip4_packet::Head4;
use ip6_packet::Head6;
use octets::protocol::{ICMP4, ICMP6};
use octets::{Bytes, Fault};
use rows::{RowFault, Said, Words};
use std::alloc::Global;

/// The least TTL and hop limit of a packet that passes a node.
const LASTING: u8 = 2;

/// The most octets behind an IPv4 header.
const MOST_PAYLOAD: u16 = 65_515;

/// Whether the message is a query, has no row, or embeds a packet that can be read.
fn embeds46(alloc: Global, message: &Icmp4) -> bool
    ensures { IsTrue result → EmbedsOne46 message.now (row_of table46 message.now.kind message.now.code) }
{
    let Some(row) = row46(message.kind, message.code) else {
        return true;
    };
    if matches!(row.rest, Rest::Query) {
        return true;
    }
    match read_inner4(alloc, message.embedded()) {
        Ok(_inner) => true,
        Err(_) => false,
    }
}

fn embeds64(alloc: Global, message: &Icmp6) -> bool
    ensures { IsTrue result → EmbedsOne64 message.now (row_of table64 message.now.kind message.now.code) }
{
    let Some(row) = row64(message.kind, message.code) else {
        return true;
    };
    if matches!(row.rest, Rest::Query) {
        return true;
    }
    match read_inner6(alloc, message.embedded()) {
        Ok(_inner) => true,
        Err(_) => false,
    }
}

/// Whether segments are left.
fn is_routed(left: Option<u32>) -> bool
    ensures { result ≡ false → left ≡ None }
{
    match left {
        Some(_) => true,
        None => false,
    }
}

/// Whether the packet may be translated.
fn is_accepted46(alloc: Global, packet: &[u8]) -> bool
    ensures { IsTrue result → IsAccepted46 packet.now }
{
    let Ok(head) = Head4::read(packet) else {
        return false;
    };
    if head.proto != ICMP4 || head.routed || head.mf || head.offset != 0 || head.ttl < LASTING {
        return false;
    }
    let Ok(message) = Icmp4::read(alloc, head.payload(packet)) else {
        return false;
    };
    embeds46(alloc, &message)
}

fn is_accepted64(alloc: Global, packet: &[u8]) -> bool
    ensures { IsTrue result → IsAccepted64 packet.now }
{
    let Ok(head) = Head6::read(packet) else {
        return false;
    };
    if head.upper != ICMP6 || is_routed(head.left) || head.hop < LASTING {
        return false;
    }
    if head.length > MOST_PAYLOAD || head.fragment_offset() != 0 || head.more_fragments() {
        return false;
    }
    let Ok(message) = Icmp6::read(alloc, head.src, head.dst, head.payload(packet)) else {
        return false;
    };
    embeds64(alloc, &message)
}

/// Says the packet that a message was translated to.
fn say_translated(said: &mut Said, translated: Result<Bytes, Fault>) -> Result<(), RowFault> {
    match translated {
        Ok(octets) => said.octets(octets.as_slice()),
        Err(fault) => say_fault(said, fault),
    }
}

/// `icmp46 MTUS PACKET SOURCE DESTINATION EMBEDDED_SOURCE EMBEDDED_DESTINATION PORTS`
fn to_icmp6(alloc: Global, words: &mut Words<'_>, said: &mut Said) -> Result<(), RowFault> {
    let mtus = mtus(words)?;
    let packet = words.octets(alloc)?;
    let ends = Ends {
        src: words.addr6()?,
        dst: words.addr6()?,
        inner_src: words.addr6()?,
        inner_dst: words.addr6()?,
        ports: ports(words)?,
    };
    let Some(mtus) = mtus else {
        return say_unmet(said);
    };
    if !is_accepted46(alloc, packet.as_slice()) {
        return say_unmet(said);
    }
    say_translated(said, icmp46(alloc, mtus, packet.as_slice(), &ends))
}

/// `icmp64 MTUS PACKET SOURCE DESTINATION EMBEDDED_SOURCE EMBEDDED_DESTINATION PORTS IDENTIFICATION`
fn to_icmp4(alloc: Global, words: &mut Words<'_>, said: &mut Said) -> Result<(), RowFault> {
    let mtus = mtus(words)?;
    let packet = words.octets(alloc)?;
    let ends = Ends {
        src: words.addr4()?,
        dst: words.addr4()?,
        inner_src: words.addr4()?,
        inner_dst: words.addr4()?,
        ports: ports(words)?,
    };
    let id = words.sixteen()?;
    let Some(mtus) = mtus else {
        return say_unmet(said);
    };
    if !is_accepted64(alloc, packet.as_slice()) {
        return say_unmet(said);
    }
    say_translated(said, icmp64(alloc, mtus, packet.as_slice(), &ends, id))
}

/// Translates the message.
pub fn answer(
    alloc: Global,
    verb: &str,
    words: &mut Words<'_>,
    said: &mut Said,
) -> Result<(), RowFault> {
    match verb {
        "icmp46" => to_icmp6(alloc, words, said),
        _ => to_icmp4(alloc, words, said),
    }
}

//! TCP and UDP packets, translated as a whole.

ghost use Rattle.std.specs.Prelude.{IsTrue, false, List, ℕ};
ghost use Rattle.packets.specs.Packet4.{IsPacket4};
ghost use Rattle.packets.specs.Packet6.{IsPacket6};
ghost use Rattle.xlat46.specs.Whole.{IsAccepted46};
ghost use Rattle.xlat64.specs.Whole.{IsAccepted64};

use crate::drawn::ports;
use crate::sent::{say_unmet, say_written};
use l4_headers::Ports;
use packets::{Content4, Content6, Found, Packet4, Packet6};
use rows::{RowFault, Said, Words};
use std::alloc::Global;
use xlat46::whole46;
use xlat64::whole64;

/// The least TTL and hop limit of a packet that passes a node.
const LASTING: u8 = 2;

/// The most octets behind an IPv4 header.
const MOST_PAYLOAD: u16 = 65_515;

/// Whether ports are given exactly where the IPv4 packet has some, and its TTL lasts.
fn may_pass46(packet: &Packet4, ports: Option<Ports>) -> bool
    ensures { IsTrue result → (octets : List ℕ) → IsPacket4 packet.now octets → IsAccepted46 octets ports }
{
    if packet.head.ttl < LASTING {
        return false;
    }
    match (&packet.content, ports) {
        (Content4::Segment { .. }, Some(_)) => true,
        (Content4::Later { .. }, None) => true,
        _ => false,
    }
}

/// Whether the IPv4 packet in these octets may be translated with these ports.
fn is_accepted46(alloc: Global, octets: &[u8], ports: Option<Ports>) -> bool
    ensures { IsTrue result → IsAccepted46 octets.now ports }
{
    match Packet4::read(alloc, octets) {
        Ok(Found::Taken(packet)) => may_pass46(&packet, ports),
        _ => false,
    }
}

/// Whether ports are given exactly where the IPv6 packet has some, its hop limit lasts, and IPv4 has room for it.
fn may_pass64(packet: &Packet6, ports: Option<Ports>) -> bool
    ensures { IsTrue result → (octets : List ℕ) → IsPacket6 false packet.now octets → IsAccepted64 octets ports }
{
    if packet.head.hop < LASTING || packet.head.length > MOST_PAYLOAD {
        return false;
    }
    match (&packet.content, ports) {
        (Content6::Segment { .. }, Some(_)) => true,
        (Content6::Later { .. }, None) => true,
        _ => false,
    }
}

/// Whether the IPv6 packet in these octets may be translated with these ports.
fn is_accepted64(alloc: Global, octets: &[u8], ports: Option<Ports>) -> bool
    ensures { IsTrue result → IsAccepted64 octets.now ports }
{
    match Packet6::read(alloc, octets, false) {
        Ok(Found::Taken(packet)) => may_pass64(&packet, ports),
        _ => false,
    }
}

/// The ports of a packet that has some: `yes` and both, or `no`.
fn some_ports(words: &mut Words<'_>) -> Result<Option<Ports>, RowFault> {
    if words.flag()? {
        return Ok(Some(ports(words)?));
    }
    Ok(None)
}

/// `whole46 PACKET SOURCE DESTINATION PORTS`: the packet between these addresses over IPv6.
fn over_ipv6(alloc: Global, words: &mut Words<'_>, said: &mut Said) -> Result<(), RowFault> {
    let octets = words.octets(alloc)?;
    let src = words.addr6()?;
    let dst = words.addr6()?;
    let ports = some_ports(words)?;
    if !is_accepted46(alloc, octets.as_slice(), ports) {
        return say_unmet(said);
    }
    say_written(said, whole46(alloc, octets.as_slice(), src, dst, ports))
}

/// `whole64 PACKET SOURCE DESTINATION PORTS IDENTIFICATION`: the packet between these addresses over IPv4.
fn over_ipv4(alloc: Global, words: &mut Words<'_>, said: &mut Said) -> Result<(), RowFault> {
    let octets = words.octets(alloc)?;
    let src = words.addr4()?;
    let dst = words.addr4()?;
    let ports = some_ports(words)?;
    let id = words.sixteen()?;
    if !is_accepted64(alloc, octets.as_slice(), ports) {
        return say_unmet(said);
    }
    say_written(said, whole64(alloc, octets.as_slice(), src, dst, ports, id))
}

/// Translates the packet.
pub fn answer(
    alloc: Global,
    verb: &str,
    words: &mut Words<'_>,
    said: &mut Said,
) -> Result<(), RowFault> {
    match verb {
        "whole46" => over_ipv6(alloc, words, said),
        _ => over_ipv4(alloc, words, said),
    }
}

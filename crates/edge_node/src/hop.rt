//! The hop of an edge.
ghost use Rattle.std.specs.Prelude.{◌≡◌, IfOk, OnOk, false};
ghost use Rattle.hops.specs.Gains.{Gains};
ghost use Rattle.packets.specs.Found.{IsFound4, IsFound6};
ghost use Rattle.edge_node.specs.declared.way.Way.TheVariants.{Lan as AtLan, Access as AtAccess, Turned as AtItself};
ghost use Rattle.nat_model.specs.Waiting.{freed_of};
ghost use Rattle.edge_node.specs.Hop.{IsEdgeHop, IsEmittable};
ghost use Rattle.edge_node.specs.Taken.{way_of, IsRead};

use crate::inward::{self, FromAccess, FromItself};
use crate::outward::{self, FromLan};
use crate::taken::Taken;
use crate::way::{EdgeParams, Node, Way};
use hops::{Emission, Hop, Ipv4, Ipv6, carry_flow};
use ip4_packet::Head4;
use ip6_packet::Head6;
use nat_model::Answer;
use octets::{NoMemory, Parcel};
use packets::{Found, Packet4, Packet6};
use std::alloc::Global;

/// The fragments that an answer freed.
fn freed_by(answer: &Answer) -> &[Parcel]
    ensures { result.now ≡ freed_of answer.now }
{
    match answer {
        Answer::Out { freed, .. }
        | Answer::Turn { freed, .. }
        | Answer::In { freed, .. }
        | Answer::Refused { freed, .. } => freed.as_slice(),
        Answer::Kept { .. } | Answer::Held => &[],
    }
}

/// What becomes of what came from the LAN.
fn emit_from_lan(
    node: &Node,
    found: &Found<Packet4, Head4>,
    answer: &Answer,
    octets: &[u8],
    hop: &mut Emission,
) -> Result<(), NoMemory>
    requires found { IsFound4 octets.now found.now }
    requires emittable { IsEmittable AtLan answer.now octets.now }
    ensures { OnOk result (Gains (IsEdgeHop node.now AtLan answer.now octets.now) hop.old hop.new) }
{
    match found {
        Found::Taken(packet) => {
            let from = FromLan { node, answer };
            carry_flow::<Ipv4, FromLan<'_>>(&from, packet, octets, freed_by(answer), hop)
        }
        Found::Unreadable(cause) => hop.lose(*cause),
        Found::Dropped(cause, head) => outward::in_hand(node, head, octets).refuse(*cause, hop),
    }
}

/// What becomes of what came from the access network.
fn emit_from_access(
    node: &Node,
    found: &Found<Packet6, Head6>,
    answer: &Answer,
    octets: &[u8],
    hop: &mut Emission,
) -> Result<(), NoMemory>
    requires found { IsFound6 false octets.now found.now }
    requires emittable { IsEmittable AtAccess answer.now octets.now }
    ensures { OnOk result (Gains (IsEdgeHop node.now AtAccess answer.now octets.now) hop.old hop.new) }
{
    match found {
        Found::Taken(packet) => {
            let from = FromAccess { node, answer };
            carry_flow::<Ipv6<false>, FromAccess<'_>>(&from, packet, octets, freed_by(answer), hop)
        }
        Found::Unreadable(cause) => hop.lose(*cause),
        Found::Dropped(cause, head) => inward::in_hand(node, head, octets).refuse(*cause, hop),
    }
}

/// What becomes of what the edge turned. Nothing answers it where it is dropped.
fn emit_from_itself(
    node: &Node,
    found: &Found<Packet4, Head4>,
    answer: &Answer,
    octets: &[u8],
    hop: &mut Emission,
) -> Result<(), NoMemory>
    requires found { IsFound4 octets.now found.now }
    requires emittable { IsEmittable AtItself answer.now octets.now }
    ensures { OnOk result (Gains (IsEdgeHop node.now AtItself answer.now octets.now) hop.old hop.new) }
{
    match found {
        Found::Taken(packet) => {
            let from = FromItself { answer };
            carry_flow::<Ipv4, FromItself<'_>>(&from, packet, octets, freed_by(answer), hop)
        }
        Found::Unreadable(cause) | Found::Dropped(cause, _) => hop.lose(*cause),
    }
}

impl Taken {
    /// What an edge sends and drops by this packet that it took and its machine's answer, as `emit` says. The octets are those
    /// that the packet was read from.
    pub fn emit(
        &self,
        alloc: Global,
        node: &Node,
        answer: &Answer,
        octets: &[u8],
    ) -> Result<Hop, NoMemory>
        requires read { IsRead octets.now self.now }
        requires emittable { IsEmittable (way_of self.now) answer.now octets.now }
        ensures { IfOk result (IsEdgeHop node.now (way_of self.now) answer.now octets.now) }
    {
        let mut hop = Emission::new(alloc);
        match self {
            Taken::Lan(found) => emit_from_lan(node, found, answer, octets, &mut hop)?,
            Taken::Access(found) => emit_from_access(node, found, answer, octets, &mut hop)?,
            Taken::Turned(found) => emit_from_itself(node, found, answer, octets, &mut hop)?,
        }
        Ok(hop.hop())
    }
}

/// What an edge sends and drops, by the packet that it took on this way and its machine's answer (RFC 7599, section 8;
/// RFC 7915). The packet is translated with the addresses and the port of the answer, or turned; and after it the fragments
/// that the answer freed, each with the same answer. A dropped packet has one cause, and is answered by an ICMP error to
/// where it came from, where one may answer it: from the edge's LAN address to the LAN, from the packet's destination to the
/// access network. None answers a packet that the edge turned. `id` is the identification of packets that have none of their
/// own.
///
/// The answer is one that a packet of this way may have; or the packet is one that `ask_of` refuses, and the answer
/// `Refused` with that cause and no freed parcels.
pub fn emit(
    alloc: Global,
    setup: &EdgeParams,
    way: Way,
    answer: &Answer,
    packet: &[u8],
    id: u16,
) -> Result<Hop, NoMemory>
    requires { IsEmittable way answer.now packet.now }
    ensures { IfOk result (IsEdgeHop (record { params = setup.now; id = id }) way answer.now packet.now) }
{
    let node = Node { params: *setup, id };
    let taken = Taken::read(alloc, way, packet)?;
    taken.emit(alloc, &node, answer, packet)
}

//! The hop of the relay.
ghost use Rattle.std.specs.Prelude.{◌≡◌, IfOk, OnOk, Some, true};
ghost use Rattle.std.specs.Option.{option_map};
ghost use Rattle.hops.specs.Gains.{Gains};
ghost use Rattle.hops.specs.Hop.{IsLaterFragment, IsOne, IsRefused, AreFreed, IsMade};
ghost use Rattle.relay_node.specs.Asked.{IsTold};
ghost use Rattle.relay_node.specs.Relay.{relay_at};
ghost use Rattle.relay_node.specs.Hop.{IsAnswered, IsRelayHop};
ghost use Rattle.relay_node.specs.Taken.{is_six, IsRead};

use crate::RelayParams;
use crate::relay::Relay;
use crate::side::{AtRelay, RelaySide};
use crate::taken::Taken;
use frag_table::FragAnswer;
use hops::{Emission, Hop, InHand, Ipv4, Ipv6, carry_flow};
use octets::{Cause, NoMemory};
use packets::Found;
use rule_book::RuleView;
use std::alloc::Global;

/// What becomes of a fragment that was read, by what the notes told of it.
fn tell<V: RuleView, S: RelaySide<V>>(
    relay: &Relay<'_, V>,
    packet: &S::Packet,
    octets: &[u8],
    told: &FragAnswer,
    hop: &mut Emission,
) -> Result<(), NoMemory>
    requires { S.IsPacket packet.now octets.now }
    ensures { OnOk result (Gains
        (IsAnswered (S.Becomes relay.now packet.now octets.now)
        (λ ports parcels hop. AreFreed (IsLaterFragment S.IsPacket S.extent_of)
        (IsOne S.IsPacket (λ p octets hop. S.Becomes relay.now p octets ports hop)) parcels hop)
        (S.flow_of packet.now).ports (Some told.now))
        hop.old hop.new) }
{
    let ports = S::flow(packet).ports;
    match told {
        FragAnswer::Noted => S::carry(relay, packet, octets, ports, hop),
        FragAnswer::Known(first) => S::carry(relay, packet, octets, *first, hop),
        FragAnswer::Held => Ok(()),
        FragAnswer::Released(parcels) => {
            let flow = AtRelay { relay, ports };
            carry_flow::<S, AtRelay<'_, V>>(&flow, packet, octets, parcels.as_slice(), hop)
        }
        FragAnswer::Full => hop.lose(Cause::FragmentsFull),
    }
}

/// What becomes of a packet that was read, by what the notes told of it.
fn answer<V: RuleView, S: RelaySide<V>>(
    relay: &Relay<'_, V>,
    packet: &S::Packet,
    octets: &[u8],
    told: Option<&FragAnswer>,
    hop: &mut Emission,
) -> Result<(), NoMemory>
    requires { S.IsPacket packet.now octets.now }
    ensures { OnOk result (Gains
        (IsAnswered (S.Becomes relay.now packet.now octets.now)
        (λ ports parcels hop. AreFreed (IsLaterFragment S.IsPacket S.extent_of)
        (IsOne S.IsPacket (λ p octets hop. S.Becomes relay.now p octets ports hop)) parcels hop)
        (S.flow_of packet.now).ports (option_map (λ answer. answer.now) told.entry))
        hop.old hop.new) }
{
    match told {
        Some(told) => tell::<V, S>(relay, packet, octets, told, hop),
        None => S::carry(relay, packet, octets, S::flow(packet).ports, hop),
    }
}

/// What becomes of what was found, by what the notes told of it.
fn take<V: RuleView, S: RelaySide<V>>(
    relay: &Relay<'_, V>,
    found: &Found<S::Packet, S::Head>,
    octets: &[u8],
    told: Option<&FragAnswer>,
    hop: &mut Emission,
) -> Result<(), NoMemory>
    requires { S.IsFound octets.now found.now }
    ensures { OnOk result (Gains (IsMade
        (λ p hop. IsAnswered (S.Becomes relay.now p octets.now)
        (λ ports parcels hop. AreFreed (IsLaterFragment S.IsPacket S.extent_of)
        (IsOne S.IsPacket (λ p octets hop. S.Becomes relay.now p octets ports hop)) parcels hop)
        (S.flow_of p).ports (option_map (λ answer. answer.now) told.entry) hop)
        (λ h cause hop. IsRefused (S.IsReply (S.answering relay.now h) h octets.now) (S.answering relay.now h).exit cause hop)
        found.now)
        hop.old hop.new) }
{
    match found {
        Found::Taken(packet) => answer::<V, S>(relay, packet, octets, told, hop),
        Found::Unreadable(cause) => hop.lose(*cause),
        Found::Dropped(cause, head) => {
            let in_hand: InHand<'_, S> = InHand {
                head,
                octets,
                from: S::answering(relay, head),
            };
            in_hand.refuse(*cause, hop)
        }
    }
}

/// The hop of what was found.
fn hop_of<V: RuleView, S: RelaySide<V>>(
    alloc: Global,
    relay: &Relay<'_, V>,
    found: &Found<S::Packet, S::Head>,
    octets: &[u8],
    told: Option<&FragAnswer>,
) -> Result<Hop, NoMemory>
    requires { S.IsFound octets.now found.now }
    ensures { IfOk result (IsMade
        (λ p hop. IsAnswered (S.Becomes relay.now p octets.now)
        (λ ports parcels hop. AreFreed (IsLaterFragment S.IsPacket S.extent_of)
        (IsOne S.IsPacket (λ p octets hop. S.Becomes relay.now p octets ports hop)) parcels hop)
        (S.flow_of p).ports (option_map (λ answer. answer.now) told.entry) hop)
        (λ h cause hop. IsRefused (S.IsReply (S.answering relay.now h) h octets.now) (S.answering relay.now h).exit cause hop)
        found.now) }
{
    let mut hop = Emission::new(alloc);
    take::<V, S>(relay, found, octets, told, &mut hop)?;
    Ok(hop.hop())
}

impl Taken {
    /// One hop of this packet at the relay, by what the notes told of it, as `relay_hop` says. The octets are those that the packet
    /// was read from.
    pub fn hop<V: RuleView>(
        &self,
        alloc: Global,
        relay: &Relay<'_, V>,
        octets: &[u8],
        told: Option<&FragAnswer>,
    ) -> Result<Hop, NoMemory>
        requires { IsRead octets.now self.now }
        ensures { IfOk result (λ hop. IsRelayHop relay.now (is_six self.now) octets.now (option_map
            (λ answer. answer.now) told.entry) hop) }
    {
        match self {
            Taken::Six(found) => hop_of::<V, Ipv6<true>>(alloc, relay, found, octets, told),
            Taken::Four(found) => hop_of::<V, Ipv4>(alloc, relay, found, octets, told),
        }
    }
}

/// One hop of a packet at the relay, under the rules of the view: what it sends, in this order, and what it drops. `six`
/// says that the packet comes from the access network, and else it comes from IPv4: from the core, or turned by the relay
/// itself. `id` is the identification that packets get which have none. `frag` is what the notes answer to `frag_of`.
///
/// A packet from the access network goes on to IPv4 where its source is the MAP address, under a rule, of an IPv4 address
/// for its source port, else it is `Spoofed`, and its destination embeds an address under the default mapping rule, else
/// it is `NotDefault` (RFC 7599, section 8.3). One from IPv4 goes on to the MAP address of its destination and
/// destination port, else it has `NoOwner` (RFC 7599, section 8.4). Of an ICMP error the ports are the other ones of the
/// packet that it embeds. What is sent over IPv4 turns where a rule's IPv4 prefix has its destination. A packet whose TTL
/// is spent, or that is too big, or that has a source route, is answered by an ICMP error where one may answer it, and
/// other packets are dropped without. Fragments that a first one frees follow it, each as a packet of its flow.
pub fn relay_hop<V: RuleView>(
    alloc: Global,
    view: &V,
    params: &RelayParams,
    six: bool,
    packet: &[u8],
    id: u16,
    frag: Option<&FragAnswer>,
) -> Result<Hop, NoMemory>
    requires { IsTold six packet.now (option_map (λ answer. answer.now) frag) }
    ensures { IfOk result (λ hop. IsRelayHop
        (relay_at (V.rules view.now) (V.default_rule view.now) params.now id) six packet.now (option_map
        (λ answer. answer.now) frag.entry) hop) }
{
    let relay = Relay::new(view, params, id);
    let taken = Taken::read(alloc, six, packet)?;
    taken.hop(alloc, &relay, packet, frag)
}

//! Packets from IPv4: from the core, or turned by the relay itself.
ghost use Rattle.std.specs.Prelude.{◌≡◌, OnOk};
ghost use Rattle.std.specs.Option.{option_map};
ghost use Rattle.hops.specs.Gains.{Gains};
ghost use Rattle.packets.specs.Asked.{flow_of4};
ghost use Rattle.packets.specs.Packet4.{IsPacket4};
ghost use Rattle.relay_node.specs.Relay.{destination_port, own_of};
ghost use Rattle.relay_node.specs.FromIpv4.{far_end, ends46, IsPassed4};

use crate::relay::Relay;
use crate::side::RelaySide;
use hops::{Answering, Emission, Exit, InHand, Ipv4};
use icmp_xlat::{Ends, Passing};
use ip4_packet::Head4;
use l4_headers::Ports;
use octets::{Addr4, Addr6, Cause, NoMemory};
use packets::{Content4, Packet4};
use rule_book::RuleView;
use transit::passage46;

/// The far end of the flow: the packet's source, and of an error the destination of the packet that it embeds.
fn far_end(packet: &Packet4) -> Addr4
    ensures { result ≡ far_end packet.now.head.src packet.now.content }
{
    match &packet.content {
        Content4::Error { inner, .. } => inner.head.dst,
        Content4::Segment { .. } | Content4::Later { .. } | Content4::Query { .. } => {
            packet.head.src
        }
    }
}

/// The ends over IPv6, where the destination has this MAP address.
fn ends<V: RuleView>(
    relay: &Relay<'_, V>,
    packet: &Packet4,
    own: Addr6,
    ports: Ports,
) -> Ends<Addr6>
    ensures { result ≡ ends46 relay.now packet.now own ports }
{
    Ends {
        src: relay.embedded(packet.head.src),
        dst: own,
        inner_src: own,
        inner_dst: relay.embedded(far_end(packet)),
        ports,
    }
}

/// What becomes of the packet between these ends.
fn pass<V: RuleView>(
    relay: &Relay<'_, V>,
    packet: &Packet4,
    octets: &[u8],
    ends: Ends<Addr6>,
    hop: &mut Emission,
) -> Result<(), NoMemory>
    requires { IsPacket4 packet.now octets.now }
    ensures { OnOk result (Gains (IsPassed4 relay.now packet.now octets.now ends) hop.old hop.new) }
{
    let passing = Passing {
        mtus: relay.mtus(),
        ends,
        id: relay.id(),
    };
    let passage = passage46(hop.alloc(), &passing, packet, octets)?;
    let in_hand: InHand<'_, Ipv4> = InHand {
        head: &packet.head,
        octets,
        from: <Ipv4 as RelaySide<V>>::answering(relay, &packet.head),
    };
    in_hand.leave(Exit::ToAccess, passage, hop)
}

/// The MAP address of the packet's destination for the port of the flow, where a rule gives one.
fn own<V: RuleView>(relay: &Relay<'_, V>, packet: &Packet4, ports: Ports) -> Option<Addr6>
    ensures { option_map (λ own. own.0) result
        ≡ own_of relay.now packet.now.head.dst (destination_port (flow_of4 packet.now.content).fault ports) }
{
    let port = if packet.flow().fault {
        ports.src
    } else {
        ports.dst
    };
    relay.owner(packet.head.dst, port)
}

impl<V: RuleView> RelaySide<V> for Ipv4 {
    ghost use Rattle.relay_node.specs.FromIpv4.{answering4, Becomes4};

    ghost Becomes = { λ relay p octets ports hop. Becomes4 relay p octets ports hop };

    ghost answering = { answering4 };

    fn carry(
        relay: &Relay<'_, V>,
        packet: &Packet4,
        octets: &[u8],
        ports: Ports,
        hop: &mut Emission,
    ) -> Result<(), NoMemory> {
        let Some(own) = own(relay, packet, ports) else {
            return hop.lose(Cause::NoOwner);
        };
        let ends = ends(relay, packet, own, ports);
        pass(relay, packet, octets, ends, hop)
    }

    fn answering(relay: &Relay<'_, V>, head: &Head4) -> Answering<Addr4> {
        Answering {
            mtus: relay.mtus(),
            src: relay.addr4(),
            id: relay.id(),
            exit: relay.exit_to(head.src),
        }
    }
}

//! Packets from the access network.
ghost use Rattle.std.specs.Prelude.{◌≡◌, OnOk, true};
ghost use Rattle.hops.specs.Gains.{Gains};
ghost use Rattle.packets.specs.Asked.{flow_of6};
ghost use Rattle.packets.specs.Packet6.{IsPacket6};
ghost use Rattle.relay_node.specs.Relay.{source_port, source_addr};
ghost use Rattle.relay_node.specs.FromAccess.{answering6, IsPassed6};

use crate::relay::Relay;
use crate::side::RelaySide;
use hops::{Answering, Emission, Exit, InHand, Ipv6};
use icmp_xlat::{Ends, Passing};
use ip6_packet::Head6;
use l4_headers::Ports;
use octets::{Addr4, Addr6, Cause, NoMemory};
use packets::Packet6;
use rule_book::RuleView;
use transit::passage64;

/// The IPv4 address of the packet's source, where it is a rule's MAP address of it for the port of the flow.
fn source<V: RuleView>(relay: &Relay<'_, V>, packet: &Packet6, ports: Ports) -> Option<Addr4>
    ensures { result ≡ source_addr relay.now packet.now.head.src (source_port (flow_of6 packet.now.content).fault ports) }
{
    let port = if packet.flow().fault {
        ports.dst
    } else {
        ports.src
    };
    relay.source(packet.head.src, port)
}

/// What becomes of the packet between these ends.
fn pass<V: RuleView>(
    relay: &Relay<'_, V>,
    packet: &Packet6,
    octets: &[u8],
    ends: Ends<Addr4>,
    hop: &mut Emission,
) -> Result<(), NoMemory>
    requires { IsPacket6 true packet.now octets.now }
    ensures { OnOk result (Gains (IsPassed6 relay.now packet.now octets.now ends) hop.old hop.new) }
{
    let passing = Passing {
        mtus: relay.mtus(),
        ends,
        id: relay.id(),
    };
    let passage = passage64(hop.alloc(), &passing, packet, octets)?;
    let in_hand: InHand<'_, Ipv6<true>> = InHand {
        head: &packet.head,
        octets,
        from: <Ipv6<true> as RelaySide<V>>::answering(relay, &packet.head),
    };
    in_hand.leave(relay.exit_to(ends.dst), passage, hop)
}

impl<V: RuleView> RelaySide<V> for Ipv6<true> {
    ghost use Rattle.relay_node.specs.FromAccess.{answering6, Becomes6};

    ghost Becomes = { λ relay p octets ports hop. Becomes6 relay p octets ports hop };

    ghost answering = { λ relay h. answering6 relay };

    fn carry(
        relay: &Relay<'_, V>,
        packet: &Packet6,
        octets: &[u8],
        ports: Ports,
        hop: &mut Emission,
    ) -> Result<(), NoMemory> {
        let Some(src) = source(relay, packet, ports) else {
            return hop.lose(Cause::Spoofed);
        };
        let Some(dst) = relay.extracted(packet.head.dst) else {
            return hop.lose(Cause::NotDefault);
        };
        let ends = Ends {
            src,
            dst,
            inner_src: dst,
            inner_dst: src,
            ports,
        };
        pass(relay, packet, octets, ends, hop)
    }

    fn answering(relay: &Relay<'_, V>, _head: &Head6) -> Answering<Addr6> {
        Answering {
            mtus: relay.mtus(),
            src: relay.addr6(),
            id: relay.id(),
            exit: Exit::ToAccess,
        }
    }
}

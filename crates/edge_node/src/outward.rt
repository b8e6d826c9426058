//! Packets from the LAN.
ghost use Rattle.std.specs.Prelude.{◌≡◌, OnOk};
ghost use Rattle.octets.specs.declared.cause.Cause.{Cause as AnyCause};
ghost use Rattle.packets.specs.Packet4.{IsPacket4};
ghost use Rattle.hops.specs.Gains.{Gains};
ghost use Rattle.edge_node.specs.declared.way.Way.TheVariants.{Lan as AtLan};
ghost use Rattle.edge_node.specs.Ends.{with_near_port, ends_out};
ghost use Rattle.edge_node.specs.Hop.{Drops, FromLan, GoesOut, Turns, IsAnswerAt, lan_answering};
ghost use Rattle.turned_packets.specs.Turned.{turned_out};

use crate::way::Node;
use hops::{Answering, Carries, Emission, Exit, InHand, Ipv4};
use icmp_xlat::{Ends, Passing};
use ip4_packet::Head4;
use l4_headers::Ports;
use nat_model::Answer;
use octets::{Addr4, Addr6, Cause, NoMemory, Proto};
use packets::{Flow, Packet4};
use transit::passage46;
use turned_packets::turned_out;

/// The packet's ports with this one at the side from which it comes.
fn with_near_port(flow: &Flow, port: u16) -> Ports
    ensures { result ≡ with_near_port flow.now.proto flow.now.fault port flow.now.ports }
{
    match flow.proto {
        Proto::Icmp => Ports {
            src: port,
            dst: port,
        },
        Proto::Tcp | Proto::Udp => {
            if flow.fault {
                Ports {
                    dst: port,
                    ..flow.ports
                }
            } else {
                Ports {
                    src: port,
                    ..flow.ports
                }
            }
        }
    }
}

/// The ends of a packet that goes out.
fn ends_out(flow: &Flow, port: u16, src6: Addr6, dst6: Addr6) -> Ends<Addr6>
    ensures { result ≡ ends_out flow.now port src6 dst6 }
{
    Ends {
        src: src6,
        dst: dst6,
        inner_src: dst6,
        inner_dst: src6,
        ports: with_near_port(flow, port),
    }
}

/// A packet from the LAN in the edge's hand, which answers it from its own address there.
pub(crate) fn in_hand<'a>(node: &Node, head: &'a Head4, octets: &'a [u8]) -> InHand<'a, Ipv4>
    ensures head { result.head.now ≡ head.now }
    ensures octets { result.octets.now ≡ octets.now }
    ensures from { result.from ≡ lan_answering node.now }
{
    InHand {
        head,
        octets,
        from: Answering {
            mtus: node.params.mtus,
            src: node.params.lan,
            id: node.id,
            exit: Exit::ToLan,
        },
    }
}

/// The packet goes out to the access network, between these ends.
fn go_out(
    node: &Node,
    packet: &Packet4,
    octets: &[u8],
    ends: Ends<Addr6>,
    hop: &mut Emission,
) -> Result<(), NoMemory>
    requires { IsPacket4 packet.now octets.now }
    ensures { OnOk result (Gains (GoesOut node.now octets.now ends packet.now) hop.old hop.new) }
{
    let passing = Passing {
        mtus: node.params.mtus,
        ends,
        id: node.id,
    };
    let passage = passage46(hop.alloc(), &passing, packet, octets)?;
    in_hand(node, &packet.head, octets).leave(Exit::ToAccess, passage, hop)
}

/// The packet is turned, with this source.
fn turn(
    node: &Node,
    packet: &Packet4,
    octets: &[u8],
    source: (Addr4, u16),
    hop: &mut Emission,
) -> Result<(), NoMemory>
    requires { IsPacket4 packet.now octets.now }
    ensures { OnOk result (Gains (Turns node.now octets.now packet.now
        (turned_out source.0 source.1 packet.now octets.now)) hop.old hop.new) }
{
    if packet.head.ttl <= 1 {
        return in_hand(node, &packet.head, octets).refuse(Cause::TtlSpent, hop);
    }
    let (from, port) = source;
    let turned = turned_out(hop.alloc(), packet, octets, from, port)?;
    hop.send(Exit::ToItself, turned)
}

/// Packets from the LAN by one answer of the edge's machine.
#[derive(Drop)]
pub(crate) struct FromLan<'a> {
    pub(crate) node: &'a Node,
    pub(crate) answer: &'a Answer,
    pub(crate) ghost fits: { ∥ IsAnswerAt AtLan answer.now ∥₁ },
}

impl Carries<Ipv4> for FromLan<'_> {
    ghost Becomes = { λ from p octets hop. FromLan from.node.now from.answer.now octets p hop };

    fn carry(&self, packet: &Packet4, octets: &[u8], hop: &mut Emission) -> Result<(), NoMemory> {
        let node = self.node;
        match self.answer {
            Answer::Out {
                port,
                src6,
                dst6,
                ..
            } => {
                let ends = ends_out(&packet.flow(), *port, *src6, *dst6);
                go_out(node, packet, octets, ends, hop)
            }
            Answer::Turn { from, port, .. } => turn(node, packet, octets, (*from, *port), hop),
            Answer::Held => Ok(()),
            Answer::Refused { cause, .. } => {
                in_hand(node, &packet.head, octets).refuse(*cause, hop)
            }
            Answer::In { .. } | Answer::Kept { .. } => unreachable!(),
        }
    }
}

//! Packets from the access network, and packets that the edge turned.
ghost use Rattle.std.specs.Prelude.{◌≡◌, OnOk};
ghost use Rattle.packets.specs.Packet6.{IsPacket6};
ghost use Rattle.std.specs.Prelude.{false};
ghost use Rattle.hops.specs.Gains.{Gains};
ghost use Rattle.edge_node.specs.declared.way.Way.TheVariants.{Access as AtAccess, Turned as AtItself};
ghost use Rattle.edge_node.specs.Ends.{with_far_port, ends_in};
ghost use Rattle.edge_node.specs.Hop.{FromAccess, FromItself, ComesIn, IsAnswerAt, access_answering};

use crate::way::Node;
use hops::{Answering, Carries, Emission, Exit, InHand, Ipv4, Ipv6};
use icmp_xlat::{Ends, Passing};
use ip6_packet::Head6;
use l4_headers::Ports;
use nat_model::Answer;
use octets::{Addr4, NoMemory, Proto};
use packets::{Flow, Packet4, Packet6};
use transit::passage64;
use turned_packets::turned_in;

/// The packet's ports with this one at the side to which it goes.
fn with_far_port(flow: &Flow, port: u16) -> Ports
    ensures { result ≡ with_far_port flow.now.proto flow.now.fault port flow.now.ports }
{
    match flow.proto {
        Proto::Icmp => Ports {
            src: port,
            dst: port,
        },
        Proto::Tcp | Proto::Udp => {
            if flow.fault {
                Ports {
                    src: port,
                    ..flow.ports
                }
            } else {
                Ports {
                    dst: port,
                    ..flow.ports
                }
            }
        }
    }
}

/// The ends of a packet that comes in.
fn ends_in(flow: &Flow, to: Addr4, port: u16, from: Addr4, peer: Addr4) -> Ends<Addr4>
    ensures { result ≡ ends_in flow.now to port from peer }
{
    Ends {
        src: from,
        dst: to,
        inner_src: to,
        inner_dst: peer,
        ports: with_far_port(flow, port),
    }
}

/// A packet from the access network in the edge's hand, which answers it from where it was sent to.
pub(crate) fn in_hand<'a>(node: &Node, head: &'a Head6, octets: &'a [u8]) -> InHand<'a, Ipv6<false>>
    ensures head { result.head.now ≡ head.now }
    ensures octets { result.octets.now ≡ octets.now }
    ensures from { result.from ≡ access_answering node.now head.now }
{
    InHand {
        head,
        octets,
        from: Answering {
            mtus: node.params.mtus,
            src: head.dst,
            id: node.id,
            exit: Exit::ToAccess,
        },
    }
}

/// The packet comes in to a host, between these ends.
fn come_in(
    node: &Node,
    packet: &Packet6,
    octets: &[u8],
    ends: Ends<Addr4>,
    hop: &mut Emission,
) -> Result<(), NoMemory>
    requires { IsPacket6 false packet.now octets.now }
    ensures { OnOk result (Gains (ComesIn node.now octets.now ends packet.now) hop.old hop.new) }
{
    let passing = Passing {
        mtus: node.params.mtus,
        ends,
        id: node.id,
    };
    let passage = passage64(hop.alloc(), &passing, packet, octets)?;
    in_hand(node, &packet.head, octets).leave(Exit::ToLan, passage, hop)
}

/// Packets from the access network by one answer of the edge's machine.
#[derive(Drop)]
pub(crate) struct FromAccess<'a> {
    pub(crate) node: &'a Node,
    pub(crate) answer: &'a Answer,
    pub(crate) ghost fits: { ∥ IsAnswerAt AtAccess answer.now ∥₁ },
}

impl Carries<Ipv6<false>> for FromAccess<'_> {
    ghost Becomes = { λ from p octets hop. FromAccess from.node.now from.answer.now octets p hop };

    fn carry(&self, packet: &Packet6, octets: &[u8], hop: &mut Emission) -> Result<(), NoMemory> {
        let node = self.node;
        match self.answer {
            Answer::In {
                to,
                port,
                from,
                peer,
                ..
            } => {
                let ends = ends_in(&packet.flow(), *to, *port, *from, *peer);
                come_in(node, packet, octets, ends, hop)
            }
            Answer::Held => Ok(()),
            Answer::Refused { cause, .. } => {
                in_hand(node, &packet.head, octets).refuse(*cause, hop)
            }
            Answer::Out { .. } | Answer::Turn { .. } | Answer::Kept { .. } => unreachable!(),
        }
    }
}

/// Packets that the edge turned by one answer of its machine. No error answers one.
#[derive(Drop)]
pub(crate) struct FromItself<'a> {
    pub(crate) answer: &'a Answer,
    pub(crate) ghost fits: { ∥ IsAnswerAt AtItself answer.now ∥₁ },
}

impl Carries<Ipv4> for FromItself<'_> {
    ghost Becomes = { λ from p octets hop. FromItself from.answer.now octets p hop };

    fn carry(&self, packet: &Packet4, octets: &[u8], hop: &mut Emission) -> Result<(), NoMemory> {
        match self.answer {
            Answer::In { to, port, .. } => {
                let turned = turned_in(hop.alloc(), packet, octets, *to, *port)?;
                hop.send(Exit::ToLan, turned)
            }
            Answer::Held => Ok(()),
            Answer::Refused { cause, .. } => hop.lose(*cause),
            Answer::Out { .. } | Answer::Turn { .. } | Answer::Kept { .. } => unreachable!(),
        }
    }
}

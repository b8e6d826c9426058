//! Both versions of IP.

use crate::answering::Answering;
use crate::reply::{reply4, reply6};
use crate::side::Side;
use ip4_packet::Head4;
use ip6_packet::Head6;
use octets::{Addr4, Addr6, Bytes, Cause, NoMemory};
use packets::{Extent, Flow, Found, Packet4, Packet6};
use std::alloc::Global;

/// IPv4: a LAN, the core, or the node itself, which turned the packet.
pub struct Ipv4;

/// IPv6, the access network, at an edge or at the relay.
pub struct Ipv6<const AT_RELAY: bool>;

impl Side for Ipv4 {
    ghost use Rattle.packets.specs.Asked.{flow_of4, extent_of4};
    ghost use Rattle.packets.specs.Found.{IsHeader4, IsFound4};
    ghost use Rattle.packets.specs.Packet4.{IsPacket4};
    ghost use Rattle.hops.specs.Reply.{IsReply4};
    ghost use Rattle.hops.specs.Sides.{taken4, headed4, dropped4, only4};

    type Addr = Addr4;

    type Head = Head4;

    type Packet = Packet4;

    ghost IsPacket = { IsPacket4 };

    ghost IsHeader = { IsHeader4 };

    ghost IsFound = { IsFound4 };

    ghost head_of = { λ p. p.head };

    ghost flow_of = { λ p. flow_of4 p.content };

    ghost extent_of = { λ p. extent_of4 p.head };

    ghost IsReply = { IsReply4 };

    fn read(alloc: Global, octets: &[u8]) -> Result<Found<Packet4, Head4>, NoMemory> {
        Packet4::read(alloc, octets)
    }

    fn head(packet: &Packet4) -> &Head4 {
        &packet.head
    }

    fn flow(packet: &Packet4) -> Flow {
        packet.flow()
    }

    fn extent(packet: &Packet4) -> Extent {
        packet.extent()
    }

    fn reply(
        alloc: Global,
        from: &Answering<Addr4>,
        head: &Head4,
        octets: &[u8],
        cause: Cause,
    ) -> Result<Option<Bytes>, NoMemory> {
        reply4(alloc, from, head, octets, cause)
    }

    ghost taken = { taken4 };

    ghost headed = { headed4 };

    ghost dropped = { dropped4 };

    ghost only = { only4 };
}

impl<const AT_RELAY: bool> Side for Ipv6<AT_RELAY> {
    ghost use Rattle.packets.specs.Asked.{flow_of6, extent_of6};
    ghost use Rattle.packets.specs.Found.{IsHeader6, IsFound6};
    ghost use Rattle.packets.specs.Packet6.{IsPacket6};
    ghost use Rattle.hops.specs.Reply.{IsReply6};
    ghost use Rattle.hops.specs.Sides.{taken6, headed6, dropped6, only6};

    type Addr = Addr6;

    type Head = Head6;

    type Packet = Packet6;

    ghost IsPacket = { IsPacket6 AT_RELAY };

    ghost IsHeader = { IsHeader6 };

    ghost IsFound = { IsFound6 AT_RELAY };

    ghost head_of = { λ p. p.head };

    ghost flow_of = { λ p. flow_of6 p.content };

    ghost extent_of = { λ p. extent_of6 p.head };

    ghost IsReply = { IsReply6 };

    fn read(alloc: Global, octets: &[u8]) -> Result<Found<Packet6, Head6>, NoMemory> {
        Packet6::read(alloc, octets, AT_RELAY)
    }

    fn head(packet: &Packet6) -> &Head6 {
        &packet.head
    }

    fn flow(packet: &Packet6) -> Flow {
        packet.flow()
    }

    fn extent(packet: &Packet6) -> Extent {
        packet.extent()
    }

    fn reply(
        alloc: Global,
        from: &Answering<Addr6>,
        head: &Head6,
        octets: &[u8],
        cause: Cause,
    ) -> Result<Option<Bytes>, NoMemory> {
        reply6(alloc, from, head, octets, cause)
    }

    ghost taken = { taken6 AT_RELAY };

    ghost headed = { headed6 AT_RELAY };

    ghost dropped = { dropped6 AT_RELAY };

    ghost only = { only6 AT_RELAY };
}

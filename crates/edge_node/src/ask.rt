//! What an edge asks its machine about a packet that was read.
ghost use Rattle.std.specs.Prelude.{◌≡◌, IfOk};
ghost use Rattle.packets.specs.Asked.{flow_of4, flow_of6, extent_of4, extent_of6, key_of4, key_of6};
ghost use Rattle.edge_node.specs.Asked.{near_addr4, near_addr6, near_port, other_port, asked_part, outward, inward, inward_turned};

use frag_table::FragKey;
use nat_model::{Ask, End4, Far, Part};
use octets::{Addr4, Addr6, Bytes, NoMemory};
use packets::{Content4, Content6, Extent, Flow, Packet4, Packet6};
use std::alloc::Global;

/// The numbers of the sides in a fragment's key.
const FROM_LAN: u8 = 0;

const FROM_ACCESS: u8 = 1;

const FROM_ITSELF: u8 = 2;

/// The address of the flow's end at the side from which the packet comes.
fn near_addr4(packet: &Packet4) -> Addr4
    ensures { result ≡ near_addr4 packet.now packet.now.content }
{
    match &packet.content {
        Content4::Error { inner, .. } => inner.head.dst,
        _ => packet.head.src,
    }
}

/// The same of an IPv6 packet.
fn near_addr6(packet: &Packet6) -> Addr6
    ensures { result ≡ near_addr6 packet.now packet.now.content }
{
    match &packet.content {
        Content6::Error { inner, .. } => inner.head.dst,
        _ => packet.head.src,
    }
}

/// The port of that end.
fn near_port(flow: &Flow) -> u16
    ensures { result ≡ near_port flow.now }
{
    if flow.fault {
        flow.ports.dst
    } else {
        flow.ports.src
    }
}

/// The port of the flow's other end.
fn other_port(flow: &Flow) -> u16
    ensures { result ≡ other_port flow.now }
{
    if flow.fault {
        flow.ports.src
    } else {
        flow.ports.dst
    }
}

/// Which part of a packet it is.
fn asked_part(alloc: Global, extent: Extent, key: FragKey, octets: &[u8]) -> Result<Part, NoMemory>
    ensures { IfOk result (λ part. part ≡ asked_part extent key octets.now) }
{
    Ok(match extent {
        Extent::Whole => Part::Whole,
        Extent::First => Part::First(key),
        Extent::Later => {
            let mut taken = Bytes::new(alloc);
            taken.extend(octets)?;
            Part::Later(key, taken)
        }
    })
}

/// What is asked about a packet from the LAN.
pub(crate) fn outward(alloc: Global, packet: &Packet4, octets: &[u8]) -> Result<Ask, NoMemory>
    ensures { IfOk result (λ ask. ask ≡ outward packet.now (flow_of4 packet.now.content) octets.now) }
{
    let flow = packet.flow();
    let near = End4 {
        addr: near_addr4(packet),
        port: near_port(&flow),
    };
    let far = End4 {
        addr: packet.head.dst,
        port: other_port(&flow),
    };
    Ok(Ask::Outward {
        fault: flow.fault,
        proto: flow.proto,
        near,
        far,
        flags: flow.flags,
        part: asked_part(alloc, packet.extent(), packet.key(FROM_LAN), octets)?,
    })
}

/// What is asked about a packet from the access network.
pub(crate) fn inward(alloc: Global, packet: &Packet6, octets: &[u8]) -> Result<Ask, NoMemory>
    ensures { IfOk result (λ ask. ask ≡ inward packet.now (flow_of6 packet.now.content) octets.now) }
{
    let flow = packet.flow();
    let far = Far::Six {
        dst: packet.head.dst,
        src: packet.head.src,
        peer: near_addr6(packet),
        port: near_port(&flow),
    };
    Ok(Ask::Inward {
        fault: flow.fault,
        proto: flow.proto,
        port: other_port(&flow),
        far,
        flags: flow.flags,
        part: asked_part(alloc, packet.extent(), packet.key(FROM_ACCESS), octets)?,
    })
}

/// What is asked about a packet that the edge turned.
pub(crate) fn inward_turned(alloc: Global, packet: &Packet4, octets: &[u8]) -> Result<Ask, NoMemory>
    ensures { IfOk result (λ ask. ask ≡ inward_turned packet.now (flow_of4 packet.now.content) octets.now) }
{
    let flow = packet.flow();
    let far = Far::Turned {
        dst: packet.head.dst,
        src: packet.head.src,
        peer: near_addr4(packet),
        port: near_port(&flow),
    };
    Ok(Ask::Inward {
        fault: flow.fault,
        proto: flow.proto,
        port: other_port(&flow),
        far,
        flags: flow.flags,
        part: asked_part(alloc, packet.extent(), packet.key(FROM_ITSELF), octets)?,
    })
}

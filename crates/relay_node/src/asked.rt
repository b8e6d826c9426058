//! What the relay asks of its notes about a fragment.
ghost use Rattle.std.specs.Prelude.{◌≡◌, IfOk};
ghost use Rattle.relay_node.specs.Asked.{asked, stripe};

use frag_table::{FragAsk, FragKey};
use l4_headers::Ports;
use octets::{Bytes, NoMemory};
use packets::Extent;
use std::alloc::Global;

/// The side of a fragment from the access network.
pub(crate) const FROM_ACCESS: u8 = 3;

/// The side of one from IPv4: from the core, or turned by the relay.
pub(crate) const FROM_IPV4: u8 = 4;

/// How many stripes of notes there are.
const STRIPES: u32 = 16;

/// The stripe in which the notes of this packet's fragments stand: its identification modulo 16.
pub fn stripe_of(key: &FragKey) -> u32
    ensures { result ≡ stripe key.now }
{
    key.id % STRIPES
}

/// The ask of this part of a packet.
pub(crate) fn asked(
    alloc: Global,
    extent: Extent,
    key: FragKey,
    ports: Ports,
    packet: &[u8],
) -> Result<Option<FragAsk>, NoMemory>
    ensures { IfOk result (λ ask. ask ≡ asked extent key ports packet.now) }
{
    match extent {
        Extent::Whole => Ok(None),
        Extent::First => Ok(Some(FragAsk::First(key, ports))),
        Extent::Later => {
            let mut octets = Bytes::new(alloc);
            octets.extend(packet)?;
            Ok(Some(FragAsk::Later(key, octets)))
        }
    }
}

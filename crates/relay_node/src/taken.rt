//! A packet that the relay takes, read once for what is asked about it and for its hop.
ghost use Rattle.std.specs.Prelude.{◌≡◌, ◌⊎◌, Option, IfOk, Ok, Err};
ghost use Rattle.octets.specs.declared.cause.Cause.{Cause as AnyCause};
ghost use Rattle.octets.specs.declared.cause.Fault.TheVariants.{Drop as Dropped, NoMemory as WantsMemory};
ghost use Rattle.frag_table.specs.declared.ask.FragAsk.{FragAsk as AnyAsk};
ghost use Rattle.relay_node.specs.Asked.{AsksFrom, IsDroppedFrom};
ghost use Rattle.relay_node.specs.Taken.{is_six, IsRead};

use crate::asked::{FROM_ACCESS, FROM_IPV4, asked};
use frag_table::FragAsk;
use ip4_packet::Head4;
use ip6_packet::Head6;
use octets::{Fault, NoMemory};
use packets::{Found, Packet4, Packet6};
use std::alloc::Global;

/// Octets as the relay finds them.
#[derive(Debug, Drop)]
pub enum Taken {
    /// From the access network.
    Six(Found<Packet6, Head6>),
    /// From IPv4: from the core, or turned by the relay itself.
    Four(Found<Packet4, Head4>),
}

impl Taken {
    /// Reads octets that come from the access network, or else from IPv4.
    pub fn read(alloc: Global, six: bool, octets: &[u8]) -> Result<Taken, NoMemory>
        ensures six { IfOk result (λ taken. is_six taken ≡ six) }
        ensures read { IfOk result (IsRead octets.now) }
    {
        if six {
            Ok(Taken::Six(Packet6::read(alloc, octets, true)?))
        } else {
            Ok(Taken::Four(Packet4::read(alloc, octets)?))
        }
    }

    /// What the relay asks of its notes about it, as `frag_of` says. The octets are those that it was read from.
    pub fn ask(&self, alloc: Global, octets: &[u8]) -> Result<Option<FragAsk>, Fault>
        requires { IsRead octets.now self.now }
        ensures asked { IfOk result (λ ask. AsksFrom (is_six self.now) octets.now ask) }
        ensures refused { (cause : AnyCause) → result ≡ Err (Dropped cause) → IsDroppedFrom (is_six self.now) cause octets.now }
    {
        let (extent, key, ports) = match self {
            Taken::Six(Found::Taken(packet)) => {
                (
                    packet.extent(),
                    packet.key(FROM_ACCESS),
                    packet.flow().ports,
                )
            }
            Taken::Four(Found::Taken(packet)) => {
                (packet.extent(), packet.key(FROM_IPV4), packet.flow().ports)
            }
            Taken::Six(Found::Unreadable(cause) | Found::Dropped(cause, _))
            | Taken::Four(Found::Unreadable(cause) | Found::Dropped(cause, _)) => {
                return Err(Fault::Drop(*cause));
            }
        };
        Ok(asked(alloc, extent, key, ports, octets)?)
    }
}

/// What the relay asks of its notes about a packet: nothing about a whole one, the ports of a first fragment, and the
/// octets of a later one, as they were taken. `six` says that it came from the access network, and else it came from
/// IPv4: from the core, or turned by the relay itself.
///
/// Refuses, but for want of memory, exactly the packets that every node drops before it looks at a rule, with the least
/// of their causes, as `Packet6::read` at the relay and `Packet4::read` find it.
pub fn frag_of(alloc: Global, six: bool, packet: &[u8]) -> Result<Option<FragAsk>, Fault>
    ensures asked { IfOk result (λ ask. AsksFrom six packet.now ask) }
    // The ask of the octets is the one that is given.
    ensures only { (ask : Option AnyAsk) → AsksFrom six packet.now ask → (result ≡ Ok ask) ⊎ (result ≡ Err WantsMemory) }
    ensures refused { (cause : AnyCause) → result ≡ Err (Dropped cause) → IsDroppedFrom six cause packet.now }
    // The least cause is a refusal.
    ensures cause { (cause : AnyCause) → IsDroppedFrom six cause packet.now → (result ≡ Err (Dropped cause)) ⊎ (result ≡ Err WantsMemory) }
{
    let taken = Taken::read(alloc, six, packet)?;
    taken.ask(alloc, packet)
}

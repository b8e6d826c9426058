//! A packet that an edge takes, read once for what is asked about it and for what is sent.
ghost use Rattle.std.specs.Prelude.{◌≡◌, ◌⊎◌, IfOk, Ok, Err};
ghost use Rattle.octets.specs.declared.cause.Cause.{Cause as AnyCause};
ghost use Rattle.octets.specs.declared.cause.Fault.TheVariants.{Drop as Dropped, NoMemory as WantsMemory};
ghost use Rattle.nat_model.specs.declared.ask.Ask.{Ask as AnyAsk};
ghost use Rattle.edge_node.specs.Asked.{IsAsk, IsDroppedAt};
ghost use Rattle.edge_node.specs.Taken.{way_of, IsRead};

use crate::ask::{inward, inward_turned, outward};
use crate::way::Way;
use ip4_packet::Head4;
use ip6_packet::Head6;
use nat_model::Ask;
use octets::{Fault, NoMemory};
use packets::{Found, Packet4, Packet6};
use std::alloc::Global;

/// Octets as an edge finds them on one of its ways.
#[derive(Debug, Drop)]
pub enum Taken {
    Lan(Found<Packet4, Head4>),
    Access(Found<Packet6, Head6>),
    Turned(Found<Packet4, Head4>),
}

impl Taken {
    /// Reads octets that come on this way.
    pub fn read(alloc: Global, way: Way, octets: &[u8]) -> Result<Taken, NoMemory>
        ensures way { IfOk result (λ taken. way_of taken ≡ way) }
        ensures read { IfOk result (IsRead octets.now) }
    {
        Ok(match way {
            Way::Lan => Taken::Lan(Packet4::read(alloc, octets)?),
            Way::Access => Taken::Access(Packet6::read(alloc, octets, false)?),
            Way::Turned => Taken::Turned(Packet4::read(alloc, octets)?),
        })
    }

    /// What an edge asks its machine about it, as `ask_of` says. The octets are those that it was read from.
    pub fn ask(&self, alloc: Global, octets: &[u8]) -> Result<Ask, Fault>
        requires { IsRead octets.now self.now }
        ensures found { IfOk result (IsAsk (way_of self.now) octets.now) }
        ensures refused { (cause : AnyCause) → result ≡ Err (Dropped cause) → IsDroppedAt (way_of self.now) cause octets.now }
    {
        match self {
            Taken::Lan(Found::Taken(packet)) => Ok(outward(alloc, packet, octets)?),
            Taken::Access(Found::Taken(packet)) => Ok(inward(alloc, packet, octets)?),
            Taken::Turned(Found::Taken(packet)) => Ok(inward_turned(alloc, packet, octets)?),
            Taken::Lan(Found::Unreadable(cause) | Found::Dropped(cause, _))
            | Taken::Access(Found::Unreadable(cause) | Found::Dropped(cause, _))
            | Taken::Turned(Found::Unreadable(cause) | Found::Dropped(cause, _)) => {
                Err(Fault::Drop(*cause))
            }
        }
    }
}

/// What an edge asks its machine about the packet in these octets (RFC 7599, section 8): of a flow its ends, of an ICMP
/// error the ends of the flow that the embedded packet belongs to, and whether it is a fragment.
///
/// Refuses, but for want of memory, exactly the packets that every node drops before it looks at a rule, with the least of
/// their causes.
pub fn ask_of(alloc: Global, way: Way, packet: &[u8]) -> Result<Ask, Fault>
    ensures found { IfOk result (IsAsk way packet.now) }
    // What is to be asked is asked.
    ensures only { (ask : AnyAsk) → IsAsk way packet.now ask → (result ≡ Ok ask) ⊎ (result ≡ Err WantsMemory) }
    // A refusal is the least cause.
    ensures refused { (cause : AnyCause) → result ≡ Err (Dropped cause) → IsDroppedAt way cause packet.now }
    // The least cause is a refusal.
    ensures cause { (cause : AnyCause) → IsDroppedAt way cause packet.now → (result ≡ Err (Dropped cause)) ⊎ (result ≡ Err WantsMemory) }
{
    let taken = Taken::read(alloc, way, packet)?;
    taken.ask(alloc, packet)
}

//! Packets of one flow, and the fragments that the flow frees.
ghost use Rattle.std.specs.Prelude.{◌≡◌, ℕ, List, OnOk, IsTrue, ◌↔◌};
ghost use Rattle.hops.specs.Gains.{Gains};
ghost use Rattle.hops.specs.Hop.{IsLaterFragment, IsOne, IsFreed, AreFreed, AreBoth};

use crate::emission::Emission;
use crate::side::Side;
use octets::{NoMemory, Parcel};
use packets::{Extent, Found};

/// What a node makes of packets that come from a side, once it is settled what becomes of their flow.
pub trait Carries<S: Side> {
    ghost use Rattle.hops.specs.declared.hop.Hop.{Hop as AnyHop};

    /// What the packet in these octets becomes.
    ghost Becomes: { Self → S.Packet → List ℕ → AnyHop → Type 0 };

    /// The hop carries the packet in these octets too.
    fn carry(&self, packet: &S::Packet, octets: &[u8], hop: &mut Emission) -> Result<(), NoMemory>
        requires { S.IsPacket packet.now octets.now }
        ensures { OnOk result (Gains (Becomes self.now packet.now octets.now) hop.old hop.new) };
}

/// The hop carries what a freed fragment gives. Octets that give no later fragment are passed over.
fn carry_freed<S: Side, C: Carries<S>>(
    carrier: &C,
    octets: &[u8],
    hop: &mut Emission,
) -> Result<(), NoMemory>
    ensures { OnOk result (Gains (IsFreed (IsLaterFragment S.IsPacket S.extent_of)
        (IsOne S.IsPacket (C.Becomes carrier.now)) octets.now) hop.old hop.new) }
{
    match S::read(hop.alloc(), octets)? {
        Found::Taken(packet) => match S::extent(&packet) {
            Extent::Later => carrier.carry(&packet, octets, hop),
            Extent::Whole | Extent::First => Ok(()),
        },
        Found::Unreadable(_) | Found::Dropped(_, _) => Ok(()),
    }
}

/// The hop carries the fragments in these parcels too, in their order.
fn carry_all_freed<S: Side, C: Carries<S>>(
    carrier: &C,
    parcels: &[Parcel],
    hop: &mut Emission,
) -> Result<(), NoMemory>
    ensures { OnOk result (Gains (AreFreed (IsLaterFragment S.IsPacket S.extent_of)
        (IsOne S.IsPacket (C.Becomes carrier.now)) parcels.now) hop.old hop.new) }
{
    for parcel in parcels {
        carry_freed::<S, C>(carrier, parcel.bytes.as_slice(), hop)?;
    }
    Ok(())
}

/// The hop carries this packet, and then the fragments of its flow that it frees.
pub fn carry_flow<S: Side, C: Carries<S>>(
    carrier: &C,
    packet: &S::Packet,
    octets: &[u8],
    freed: &[Parcel],
    hop: &mut Emission,
) -> Result<(), NoMemory>
    requires { S.IsPacket packet.now octets.now }
    ensures { OnOk result (Gains (AreBoth (C.Becomes carrier.now packet.now octets.now)
        (AreFreed (IsLaterFragment S.IsPacket S.extent_of) (IsOne S.IsPacket (C.Becomes carrier.now)) freed.now)) hop.old hop.new) }
{
    carrier.carry(packet, octets, hop)?;
    carry_all_freed::<S, C>(carrier, freed, hop)
}

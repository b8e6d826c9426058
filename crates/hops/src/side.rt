//! The versions of IP as packets of them come to a node.
ghost use Rattle.std.specs.Prelude.{◌≡◌, ℕ, List, Option, IfOk};

use crate::answering::Answering;
use octets::{Bytes, Cause, NoMemory};
use packets::{Extent, Flow, Found};
use std::alloc::Global;

/// A side from which packets come to a node: how they are read, which part of a packet of which flow one is, and what answers
/// one that is dropped.
pub trait Side {
    ghost use Rattle.octets.specs.declared.cause.Cause.{Cause as AnyCause};
    ghost use Rattle.hops.specs.declared.answering.Answering.{Answering as AnsweringOf};
    ghost use Rattle.packets.specs.declared.asked.Extent.{Extent as AnyExtent};
    ghost use Rattle.packets.specs.declared.asked.Flow.{Flow as AnyFlow};
    ghost use Rattle.packets.specs.declared.found.Found.{Found as FoundOf};
    ghost use Rattle.packets.specs.declared.found.Found.TheVariants.{Taken, Dropped};

    /// An address of this version.
    type Addr: Copy;
    /// The headers of a packet.
    type Head: Copy;
    /// A packet that a node takes.
    type Packet: Drop;

    /// The octets are this packet.
    ghost IsPacket: { Self.Packet → List ℕ → Type 0 };

    /// The octets have this header, in which there is no cause to drop them.
    ghost IsHeader: { Self.Head → List ℕ → Type 0 };

    /// What a node finds in octets.
    ghost IsFound: { List ℕ → FoundOf Self.Packet Self.Head → Type 0 };

    ghost head_of: { Self.Packet → Self.Head };

    ghost flow_of: { Self.Packet → AnyFlow };

    ghost extent_of: { Self.Packet → AnyExtent };

    /// What answers a packet of this header that is dropped for a cause.
    ghost IsReply: { AnsweringOf Self.Addr → Self.Head → List ℕ → AnyCause → Option (List ℕ) → Type 0 };

    /// Reads octets, once.
    fn read(alloc: Global, octets: &[u8]) -> Result<Found<Self::Packet, Self::Head>, NoMemory>
        ensures { IfOk result (IsFound octets.now) };

    /// The header of a packet.
    fn head(packet: &Self::Packet) -> &Self::Head
        ensures { result.now ≡ head_of packet.now };

    /// The flow that a packet belongs to.
    fn flow(packet: &Self::Packet) -> Flow
        ensures { result ≡ flow_of packet.now };

    /// Which part of a packet it is.
    fn extent(packet: &Self::Packet) -> Extent
        ensures { result ≡ extent_of packet.now };

    /// The error that answers a packet of this header that is dropped for a cause, where one may.
    fn reply(
        alloc: Global,
        from: &Answering<Self::Addr>,
        head: &Self::Head,
        octets: &[u8],
        cause: Cause,
    ) -> Result<Option<Bytes>, NoMemory>
        requires { IsHeader head.now octets.now }
        ensures { IfOk result (IsReply from.now head.now octets.now cause) };

    /// A packet that is found is one in the octets, and has a header.
    ghost taken: { (octets : List ℕ) (p : Self.Packet) → IsFound octets (Taken p) → IsPacket p octets };

    ghost headed: { (octets : List ℕ) (p : Self.Packet) → IsPacket p octets → IsHeader (head_of p) octets };

    /// So has one that is dropped for what stands behind it.
    ghost dropped: { (octets : List ℕ) (cause : AnyCause) (h : Self.Head) → IsFound octets (Dropped cause h) → IsHeader h octets };

    /// The packet in octets is what is found in them.
    ghost only: { (octets : List ℕ) (found : FoundOf Self.Packet Self.Head) (p : Self.Packet) → IsFound octets found
        → IsPacket p octets → found ≡ Taken p };
}

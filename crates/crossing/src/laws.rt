//! What holds of every packet that crosses the domain. Each law is the contract of a function that does nothing.

ghost use Rattle.std.specs.Prelude.{◌<◌, Bool, ℕ, List};
ghost use Rattle.octets.specs.declared.parcel.Parcel.{Parcel};
ghost use Rattle.packets.specs.declared.packet6.Packet6.{Packet6};
ghost use Rattle.crossing.specs.Named.{Portion};
ghost use Rattle.crossing.specs.Pieces.{IsCutInto, PieceBack, AreBack, ComeTogether, arrived_by, crossing_with};
ghost use Rattle.crossing.specs.Transfer.{Transfer, IsTakenAs, IsSentThere, IsBack, ComesOf, crossing_of};

/// One node translates an IPv4 packet that it took to IPv6, and a second one takes these octets, or one of the pieces into which
/// they were cut, and translates them back. Then nothing but the named header changes stands between what it sends and the
/// packet, with the ends that the second node gave it. The packet is TCP or UDP, whole, a first or a later fragment, an echo
/// request or reply, or an ICMP error.
pub fn packets_come_back_with_the_named_changes()
    ensures { (t : Transfer) (octets six four : List ℕ) (portion : Portion) (at_relay : Bool) (q : Packet6)
        → IsTakenAs t octets
        → IsSentThere t portion six
        → IsBack t at_relay q six four
        → ComesOf (crossing_of t) portion four }
{}

/// Where the second node drops and holds none of the pieces of a packet, their payloads are the whole payload with no gap, each
/// at its place. The second node may give each piece ends of its own; then ports and sum are those of the first piece.
pub fn pieces_come_back_as_the_whole_payload()
    ensures { (t : Transfer) (octets : List ℕ) (at_relay : Bool) (pieces : List Parcel) (backs : List PieceBack)
        → IsTakenAs t octets
        → t.taken.head.id < 65536
        → IsCutInto t pieces
        → AreBack t at_relay pieces backs
        → ComeTogether (crossing_with t) (arrived_by t.taken backs) }
{}

//! What holds of the definitions of the relay's hop. Each law is the contract of a function that does nothing.

ghost use Rattle.std.specs.Prelude.{Bool, ℕ, List, Option};
ghost use Rattle.frag_table.specs.declared.answer.FragAnswer.{FragAnswer as AnyAnswer};
ghost use Rattle.packets.specs.OneOf.{IsOneAtMost, IsTakenOrDropped};
ghost use Rattle.relay_node.specs.Asked.{AsksFrom, IsDroppedFrom};
ghost use Rattle.relay_node.specs.Hop.{IsRelayHop};
ghost use Rattle.relay_node.specs.Relay.{Relay as AnyRelay};

/// Law: each packet has its ask, which may be none, or it is dropped for a cause before anything is asked: one of both always,
/// never both, and in one way.
pub fn each_packet_asks_the_relay_or_is_dropped()
    ensures { (six : Bool) (octets : List ℕ) → IsTakenOrDropped (AsksFrom six octets) (λ cause. IsDroppedFrom six cause octets) }
{}

/// Law: the relay has one hop at most for a packet and what is told of it.
pub fn the_relay_has_one_hop()
    ensures { (relay : AnyRelay) (six : Bool) (octets : List ℕ) (told : Option AnyAnswer) → IsOneAtMost (IsRelayHop relay six octets told) }
{}

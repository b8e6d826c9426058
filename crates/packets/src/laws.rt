//! What holds of the definitions of packets. Each law is the contract of a function that does nothing.

ghost use Rattle.std.specs.Prelude.{Bool, ℕ, List};
ghost use Rattle.packets.specs.Behind4.{IsDropped4};
ghost use Rattle.packets.specs.Behind6.{IsDropped6};
ghost use Rattle.packets.specs.Found.{IsFound4, IsFound6};
ghost use Rattle.packets.specs.OneOf.{IsOneAtMost, IsTakenOrDropped};
ghost use Rattle.packets.specs.Packet4.{IsPacket4};
ghost use Rattle.packets.specs.Packet6.{IsPacket6};

/// Law: octets are a packet that a node takes, or they are dropped for a cause: one of both always, never both, and there is
/// one packet and one cause.
pub fn octets_are_one_packet_or_have_one_cause()
    ensures four { (octets : List ℕ) → IsTakenOrDropped (λ p. IsPacket4 p octets) (λ cause. IsDropped4 cause octets) }
    ensures six { (at_relay : Bool) (octets : List ℕ)
        → IsTakenOrDropped (λ p. IsPacket6 at_relay p octets) (λ cause. IsDropped6 at_relay cause octets) }
{}

/// Law: one thing is found in octets at most.
pub fn one_thing_is_found_in_octets()
    ensures four { (octets : List ℕ) → IsOneAtMost (IsFound4 octets) }
    ensures six { (at_relay : Bool) (octets : List ℕ) → IsOneAtMost (IsFound6 at_relay octets) }
{}

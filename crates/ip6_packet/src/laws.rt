//! What holds of headers beyond one call. Each law is the contract of a function that does nothing.

ghost use Rattle.std.specs.Prelude.{◌≡◌, ◌↔◌, ℕ, List, IsTrue, Some, None};
ghost use Rattle.ip6_packet.specs.declared.chain.Chain.{Chain as ChainType};
ghost use Rattle.ip6_packet.specs.declared.head.Head6.{Head6 as Header};
ghost use Rattle.ip6_packet.specs.declared.head.Frag6.{Frag6 as FragmentHeader};
ghost use Rattle.ip6_packet.specs.Chain.{chain_in};
ghost use Rattle.ip6_packet.specs.Headers.{IsChain};

use crate::{Frag6, Head6};

/// Law: what is found by reading extension headers from left to right is the chain that their grammar says
/// (RFC 8200, section 4), and nothing is found exactly where the octets hold no chain.
pub fn chains_are_read_by_their_grammar()
    ensures chain { (place number : ℕ) (octets : List ℕ) (chain : ChainType)
        → (chain_in place number 0 octets ≡ Some chain) ↔ IsChain place number octets chain }
    ensures none { (place number : ℕ) (octets : List ℕ)
        → (chain_in place number 0 octets ≡ None) ↔ ((chain : ChainType) → ¬ IsChain place number octets chain) }
{}

/// Law: two headers are `==` exactly where they are the same in each field.
pub fn equal_headers_are_the_same()
    ensures head { (one other : Header) → IsTrue (⟦<Head6 as PartialEq>⟧.eq one other) ↔ (one ≡ other) }
    ensures frag { (one other : FragmentHeader) → IsTrue (⟦<Frag6 as PartialEq>⟧.eq one other) ↔ (one ≡ other) }
{}

//! What holds of headers beyond one call. Each law is the contract of a function that does nothing.

ghost use Rattle.std.specs.Prelude.{◌≡◌, ◌↔◌, ℕ, List, Bool, IsTrue, Some, None};
ghost use Rattle.ip4_packet.specs.declared.head.Head4.{Head4 as Header};
ghost use Rattle.ip4_packet.specs.Options.{routed_in};
ghost use Rattle.ip4_packet.specs.OptionList.{AreOptions, AreRouted};

use crate::Head4;

/// Law: what is found in the options of a header by reading them from left to right is what their grammar
/// says (RFC 791, section 3.1), and nothing is found exactly where they are no list of options.
pub fn options_are_read_by_their_grammar()
    ensures routed { (octets : List ℕ) (routed : Bool) → (routed_in 0 octets ≡ Some routed) ↔ AreRouted octets routed }
    ensures none { (octets : List ℕ) → (routed_in 0 octets ≡ None) ↔ ((options : List (List ℕ)) → ¬ AreOptions octets options) }
{}

/// Law: two headers are `==` exactly where they are the same in each field.
pub fn equal_headers_are_the_same()
    ensures { (one other : Header) → IsTrue (⟦<Head4 as PartialEq>⟧.eq one other) ↔ (one ≡ other) }
{}

//! `==` of the types of this crate. The law is the contract of a function that does nothing.

ghost use Rattle.std.specs.Prelude.{◌≡◌, ◌↔◌, IsTrue};
ghost use Rattle.relay_node.specs.declared.params.RelayParams.{RelayParams as ParamsType};

use crate::RelayParams;

/// Law: what two relays go by is `==` exactly where it is the same.
pub fn equal_values_are_the_same()
    ensures { (one other : ParamsType) → IsTrue (⟦<RelayParams as PartialEq>⟧.eq one other) ↔ (one ≡ other) }
{
    octets::equal_values_are_the_same();
}

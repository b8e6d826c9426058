//! `==` of the types of this crate. The law is the contract of a function that does nothing.

ghost use Rattle.std.specs.Prelude.{◌≡◌, ◌↔◌, IsTrue};
ghost use Rattle.edge_node.specs.declared.way.Way.{Way as WayType};

use crate::Way;

/// Law: two ways are `==` exactly where they are the same.
pub fn equal_values_are_the_same()
    ensures { (one other : WayType) → IsTrue (⟦<Way as PartialEq>⟧.eq one other) ↔ (one ≡ other) }
{}

//! `==` of the types of this crate. The law is the contract of a function that does nothing.

ghost use Rattle.std.specs.Prelude.{◌≡◌, ◌↔◌, IsTrue};
ghost use Rattle.packets.specs.declared.asked.Flow.{Flow as FlowType};
ghost use Rattle.packets.specs.declared.asked.Extent.{Extent as ExtentType};

use crate::{Extent, Flow};

/// Law: two flows or extents are `==` exactly where they are the same.
pub fn equal_values_are_the_same()
    ensures flow { (one other : FlowType) → IsTrue (⟦<Flow as PartialEq>⟧.eq one other) ↔ (one ≡ other) }
    ensures extent { (one other : ExtentType) → IsTrue (⟦<Extent as PartialEq>⟧.eq one other) ↔ (one ≡ other) }
{}

//! `==` of the types of this crate. The law is the contract of a function that does nothing.

ghost use Rattle.std.specs.Prelude.{◌≡◌, ◌↔◌, IsTrue};
ghost use Rattle.journeys.specs.declared.stand.Stand.{Stand as StandType};

use crate::Stand;

/// Law: two stands are `==` exactly where they are the same.
pub fn equal_values_are_the_same()
    ensures { (one other : StandType) → IsTrue (⟦<Stand as PartialEq>⟧.eq one other) ↔ (one ≡ other) }
{}

//! `==` of the types of this crate. The law is the contract of a function that does nothing.

ghost use Rattle.std.specs.Prelude.{◌≡◌, ◌↔◌, IsTrue};
ghost use Rattle.hops.specs.declared.exit.Exit.{Exit as ExitType};

use crate::Exit;

/// Law: two exits are `==` exactly where they are the same.
pub fn equal_values_are_the_same()
    ensures { (one other : ExitType) → IsTrue (⟦<Exit as PartialEq>⟧.eq one other) ↔ (one ≡ other) }
{}

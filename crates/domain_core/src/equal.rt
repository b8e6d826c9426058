//! `==` of the types of this crate. The law is the contract of a function that does nothing.

ghost use Rattle.std.specs.Prelude.{◌≡◌, ◌↔◌, IsTrue};
ghost use Rattle.domain_core.specs.declared.journey.HopNote.{HopNote as NoteType};

use crate::HopNote;

/// Law: two notes of hops are `==` exactly where they are the same.
pub fn equal_values_are_the_same()
    ensures { (one other : NoteType) → IsTrue (⟦<HopNote as PartialEq>⟧.eq one other) ↔ (one ≡ other) }
{}

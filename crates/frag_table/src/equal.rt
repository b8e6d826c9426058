//! `==` of the types of this crate. The law is the contract of a function that does nothing.

ghost use Rattle.std.specs.Prelude.{◌≡◌, ◌↔◌, IsTrue};
ghost use Rattle.frag_table.specs.declared.key.FragKey.{FragKey as KeyType};

use crate::FragKey;

/// Law: two keys of fragments are `==` exactly where they are the same.
pub fn equal_values_are_the_same()
    ensures { (one other : KeyType) → IsTrue (⟦<FragKey as PartialEq>⟧.eq one other) ↔ (one ≡ other) }
{}

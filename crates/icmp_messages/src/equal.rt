//! `==` of the types of this crate. The law is the contract of a function that does nothing.

ghost use Rattle.std.specs.Prelude.{◌≡◌, ◌↔◌, IsTrue};
ghost use Rattle.icmp_messages.specs.declared.table.Rest.{Rest as RestType};
ghost use Rattle.icmp_messages.specs.declared.table.Row.{Row as RowType};

use crate::{Rest, Row};

/// Law: two rows are `==` exactly where they are the same, and so is what becomes of four octets.
pub fn equal_values_are_the_same()
    ensures rest { (one other : RestType) → IsTrue (⟦<Rest as PartialEq>⟧.eq one other) ↔ (one ≡ other) }
    ensures row { (one other : RowType) → IsTrue (⟦<Row as PartialEq>⟧.eq one other) ↔ (one ≡ other) }
{}

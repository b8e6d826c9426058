//! `==` of the types of this crate. The law is the contract of a function that does nothing.

ghost use Rattle.std.specs.Prelude.{◌≡◌, ◌↔◌, IsTrue};
ghost use Rattle.rule_book.specs.declared.change.Change.{Change as ChangeType};
ghost use Rattle.rule_book.specs.declared.fault.BookFault.{BookFault as FaultType};
ghost use Rattle.rule_book.specs.declared.lines.RuleParts.{RuleParts as PartsType};
ghost use Rattle.rule_book.specs.declared.view.FarOf.{FarOf as FarType};

use crate::{BookFault, Change, FarOf, RuleParts};

/// Law: two changes, faults, parts of a rule's line or far ends are `==` exactly where they are the same.
pub fn equal_values_are_the_same()
    ensures change { (one other : ChangeType) → IsTrue (⟦<Change as PartialEq>⟧.eq one other) ↔ (one ≡ other) }
    ensures fault { (one other : FaultType) → IsTrue (⟦<BookFault as PartialEq>⟧.eq one other) ↔ (one ≡ other) }
    ensures parts { (one other : PartsType) → IsTrue (⟦<RuleParts as PartialEq>⟧.eq one other) ↔ (one ≡ other) }
    ensures far { (one other : FarType) → IsTrue (⟦<FarOf as PartialEq>⟧.eq one other) ↔ (one ≡ other) }
{}

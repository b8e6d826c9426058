//! `==` of the types of this crate. The law is the contract of a function that does nothing.

ghost use Rattle.std.specs.Prelude.{◌≡◌, ◌↔◌, IsTrue};
ghost use Rattle.setup_tables.specs.declared.fault.SetupCause.{SetupCause as CauseType};
ghost use Rattle.setup_tables.specs.declared.fault.SetupFault.{SetupFault as FaultType};

use crate::{SetupCause, SetupFault};

/// Law: two causes or faults are `==` exactly where they are the same.
pub fn equal_values_are_the_same()
    ensures cause { (one other : CauseType) → IsTrue (⟦<SetupCause as PartialEq>⟧.eq one other) ↔ (one ≡ other) }
    ensures fault { (one other : FaultType) → IsTrue (⟦<SetupFault as PartialEq>⟧.eq one other) ↔ (one ≡ other) }
{}

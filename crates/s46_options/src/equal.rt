//! `==` of the types of this crate. The law is the contract of a function that does nothing.

ghost use Rattle.std.specs.Prelude.{◌≡◌, ◌↔◌, IsTrue};
ghost use Rattle.s46_options.specs.declared.digits.HexFault.{HexFault as HexType};
ghost use Rattle.s46_options.specs.declared.fault.OptionFault.{OptionFault as FaultType};

use crate::{HexFault, OptionFault};

/// Law: two faults are `==` exactly where they are the same.
pub fn equal_values_are_the_same()
    ensures digits { (one other : HexType) → IsTrue (⟦<HexFault as PartialEq>⟧.eq one other) ↔ (one ≡ other) }
    ensures fault { (one other : FaultType) → IsTrue (⟦<OptionFault as PartialEq>⟧.eq one other) ↔ (one ≡ other) }
{}

//! `==` of the types that a setup is told in. The law is the contract of a function that does nothing.

ghost use Rattle.std.specs.Prelude.{◌≡◌, ◌↔◌, IsTrue};
ghost use Rattle.mapt_setup.specs.declared.capture.Side.{Side as SideType};
ghost use Rattle.setup_tables.specs.declared.fault.SetupCause.{SetupCause as CauseType};
ghost use Rattle.setup_tables.specs.declared.fault.SetupFault.{SetupFault as FaultType};
ghost use Rattle.mapt_setup.specs.declared.forward.ForwardLine.{ForwardLine as ForwardType};
ghost use Rattle.mapt_setup.specs.declared.moves.MoveLine.{MoveLine as MoveType};

use crate::{ForwardLine, MoveLine, Side};
use setup_tables::{SetupCause, SetupFault};

/// Law: two sides, causes, faults, forwards or changes are `==` exactly where they are the same.
pub fn equal_values_are_the_same()
    ensures side { (one other : SideType) → IsTrue (⟦<Side as PartialEq>⟧.eq one other) ↔ (one ≡ other) }
    ensures cause { (one other : CauseType) → IsTrue (⟦<SetupCause as PartialEq>⟧.eq one other) ↔ (one ≡ other) }
    ensures fault { (one other : FaultType) → IsTrue (⟦<SetupFault as PartialEq>⟧.eq one other) ↔ (one ≡ other) }
    ensures forward { (one other : ForwardType) → IsTrue (⟦<ForwardLine as PartialEq>⟧.eq one other) ↔ (one ≡ other) }
    ensures change { (one other : MoveType) → IsTrue (⟦<MoveLine as PartialEq>⟧.eq one other) ↔ (one ≡ other) }
{
    rule_book::equal_values_are_the_same();
    setup_tables::equal_values_are_the_same();
}

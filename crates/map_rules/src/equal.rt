//! `==` of the types of this crate. The law is the contract of a function that does nothing.

ghost use Rattle.std.specs.Prelude.{◌≡◌, ◌↔◌, IsTrue};
ghost use Rattle.map_rules.specs.declared.rule.Rule.{Rule as RuleType};
ghost use Rattle.map_rules.specs.declared.rule.EdgeId.{EdgeId as EdgeType};
ghost use Rattle.map_rules.specs.declared.dmr.Dmr.{Dmr as DmrType};

use crate::{Dmr, EdgeId, Rule};

/// Law: two rules, default mapping rules or edges are `==` exactly where they are the same.
pub fn equal_values_are_the_same()
    ensures rule { (one other : RuleType) → IsTrue (⟦<Rule as PartialEq>⟧.eq one other) ↔ (one ≡ other) }
    ensures dmr { (one other : DmrType) → IsTrue (⟦<Dmr as PartialEq>⟧.eq one other) ↔ (one ≡ other) }
    ensures edge { (one other : EdgeType) → IsTrue (⟦<EdgeId as PartialEq>⟧.eq one other) ↔ (one ≡ other) }
{}

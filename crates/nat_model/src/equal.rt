//! `==` of the types of this crate. The law is the contract of a function that does nothing.

ghost use Rattle.std.specs.Prelude.{◌≡◌, ◌↔◌, IsTrue};
ghost use Rattle.nat_model.specs.declared.ask.End4.{End4 as EndType};
ghost use Rattle.nat_model.specs.declared.ask.Far.{Far as FarType};
ghost use Rattle.nat_model.specs.declared.entry.Who.{Who as WhoType};
ghost use Rattle.nat_model.specs.declared.entry.Mark.{Mark as MarkType};
ghost use Rattle.nat_model.specs.declared.binding.Binding.{Binding as BindingType};

use crate::{Binding, End4, Far, Mark, Who};

/// Law: two ends, remote sides, marks or bindings are `==` exactly where they are the same.
pub fn equal_values_are_the_same()
    ensures end { (one other : EndType) → IsTrue (⟦<End4 as PartialEq>⟧.eq one other) ↔ (one ≡ other) }
    ensures far { (one other : FarType) → IsTrue (⟦<Far as PartialEq>⟧.eq one other) ↔ (one ≡ other) }
    ensures who { (one other : WhoType) → IsTrue (⟦<Who as PartialEq>⟧.eq one other) ↔ (one ≡ other) }
    ensures mark { (one other : MarkType) → IsTrue (⟦<Mark as PartialEq>⟧.eq one other) ↔ (one ≡ other) }
    ensures binding { (one other : BindingType) → IsTrue (⟦<Binding as PartialEq>⟧.eq one other) ↔ (one ≡ other) }
{}

//! `==` of the types of this crate. Each law is the contract of a function that does nothing.

ghost use Rattle.std.specs.Prelude.{◌≡◌, ◌↔◌, IsTrue};
ghost use Rattle.std.specs.Ordering.{nat_cmp};
ghost use Rattle.octets.specs.declared.address.Addr4.{Addr4 as Addr4Type};
ghost use Rattle.octets.specs.declared.address.Addr6.{Addr6 as Addr6Type};
ghost use Rattle.octets.specs.declared.prefix.Prefix4.{Prefix4 as Prefix4Type};
ghost use Rattle.octets.specs.declared.prefix.Prefix6.{Prefix6 as Prefix6Type};
ghost use Rattle.octets.specs.declared.mtus.Mtus.{Mtus as MtusType};
ghost use Rattle.octets.specs.declared.proto.Proto.{Proto as ProtoType};
ghost use Rattle.octets.specs.declared.cause.Cause.{Cause as CauseType};
ghost use Rattle.octets.specs.declared.cause.Fault.{Fault as FaultType};
ghost use Rattle.octets.specs.declared.memory.NoMemory.{NoMemory as NoMemoryType};
ghost use Rattle.octets.specs.declared.text4.BadText.{BadText as BadTextType};

use crate::{Addr4, Addr6, BadText, Cause, Fault, Mtus, NoMemory, Prefix4, Prefix6, Proto};

/// Law: two values of a type of this crate are `==` exactly where they are the same value.
pub fn equal_values_are_the_same()
    ensures addr4 { (one other : Addr4Type) → IsTrue (⟦<Addr4 as PartialEq>⟧.eq one other) ↔ (one ≡ other) }
    ensures addr6 { (one other : Addr6Type) → IsTrue (⟦<Addr6 as PartialEq>⟧.eq one other) ↔ (one ≡ other) }
    ensures prefix4 { (one other : Prefix4Type) → IsTrue (⟦<Prefix4 as PartialEq>⟧.eq one other) ↔ (one ≡ other) }
    ensures prefix6 { (one other : Prefix6Type) → IsTrue (⟦<Prefix6 as PartialEq>⟧.eq one other) ↔ (one ≡ other) }
    ensures mtus { (one other : MtusType) → IsTrue (⟦<Mtus as PartialEq>⟧.eq one other) ↔ (one ≡ other) }
    ensures proto { (one other : ProtoType) → IsTrue (⟦<Proto as PartialEq>⟧.eq one other) ↔ (one ≡ other) }
    ensures cause { (one other : CauseType) → IsTrue (⟦<Cause as PartialEq>⟧.eq one other) ↔ (one ≡ other) }
    ensures fault { (one other : FaultType) → IsTrue (⟦<Fault as PartialEq>⟧.eq one other) ↔ (one ≡ other) }
    ensures no_memory { (one other : NoMemoryType) → IsTrue (⟦<NoMemory as PartialEq>⟧.eq one other) ↔ (one ≡ other) }
    ensures bad_text { (one other : BadTextType) → IsTrue (⟦<BadText as PartialEq>⟧.eq one other) ↔ (one ≡ other) }
{}

/// Law: addresses are in the order of their numbers.
pub fn addresses_are_in_the_order_of_numbers()
    ensures addr4 { (one other : Addr4Type) → ⟦<Addr4 as Ord>⟧.cmp one other ≡ nat_cmp one.0 other.0 }
    ensures addr6 { (one other : Addr6Type) → ⟦<Addr6 as Ord>⟧.cmp one other ≡ nat_cmp one.0 other.0 }
{}

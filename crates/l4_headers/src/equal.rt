//! `==` of the types of this crate. The law is the contract of a function that does nothing.

ghost use Rattle.std.specs.Prelude.{◌≡◌, ◌↔◌, IsTrue};
ghost use Rattle.octets.specs.declared.address.Addr4.{Addr4 as Addr4Type};
ghost use Rattle.octets.specs.declared.address.Addr6.{Addr6 as Addr6Type};
ghost use Rattle.l4_headers.specs.declared.ends.Ends.{Ends as EndsType};
ghost use Rattle.l4_headers.specs.declared.ports.Ports.{Ports as PortsType};
ghost use Rattle.l4_headers.specs.declared.ports.L4.{L4 as HeaderType};

use crate::{Ends, L4, Ports};
use octets::{Addr4, Addr6};

/// Law: two pairs of ports, two transport headers, and the ends of two packets are `==` exactly where they are the same.
pub fn equal_values_are_the_same()
    ensures ports { (one other : PortsType) → IsTrue (⟦<Ports as PartialEq>⟧.eq one other) ↔ (one ≡ other) }
    ensures header { (one other : HeaderType) → IsTrue (⟦<L4 as PartialEq>⟧.eq one other) ↔ (one ≡ other) }
    ensures ends4 { (one other : EndsType Addr4Type) → IsTrue (⟦<Ends<Addr4> as PartialEq>⟧.eq one other) ↔ (one ≡ other) }
    ensures ends6 { (one other : EndsType Addr6Type) → IsTrue (⟦<Ends<Addr6> as PartialEq>⟧.eq one other) ↔ (one ≡ other) }
{}

//! `==` of the types of this crate. The law is the contract of a function that does nothing.

ghost use Rattle.std.specs.Prelude.{◌≡◌, ◌↔◌, IsTrue};
ghost use Rattle.port_set.specs.declared.port_set.PortSet.{PortSet as PortSetType};
ghost use Rattle.port_set.specs.declared.port_set.BadPorts.{BadPorts as BadPortsType};

use crate::{BadPorts, PortSet};

/// Law: two port sets are `==` exactly where they are the same: offset, PSID length and PSID are. So are
/// two refusals.
pub fn equal_values_are_the_same()
    ensures port_set { (one other : PortSetType) → IsTrue (⟦<PortSet as PartialEq>⟧.eq one other) ↔ (one ≡ other) }
    ensures bad_ports { (one other : BadPortsType) → IsTrue (⟦<BadPorts as PartialEq>⟧.eq one other) ↔ (one ≡ other) }
{}

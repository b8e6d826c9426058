//! `==` of faults. The law is the contract of a function that does nothing.

ghost use Rattle.std.specs.Prelude.{◌≡◌, ◌↔◌, IsTrue};
ghost use Rattle.pcap_files.specs.declared.fault.CaptureFault.{CaptureFault as FaultType};

use crate::CaptureFault;

/// Two faults are `==` exactly where they are the same.
pub fn equal_faults_are_the_same()
    ensures { (one other : FaultType) → IsTrue (⟦<CaptureFault as PartialEq>⟧.eq one other) ↔ (one ≡ other) }
{}

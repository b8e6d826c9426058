//! `==` of the types of this crate. The law is the contract of a function that does nothing.

ghost use Rattle.std.specs.Prelude.{◌≡◌, ◌↔◌, IsTrue};
ghost use Rattle.mapt_tool.specs.declared.status.Status.{Status as StatusType};

use crate::Status;

/// Law: two statuses are `==` exactly where they are the same.
pub fn equal_values_are_the_same()
    ensures { (one other : StatusType) → IsTrue (⟦<Status as PartialEq>⟧.eq one other) ↔ (one ≡ other) }
{
    mapt_setup::equal_values_are_the_same();
    outside::equal_values_are_the_same();
    pcap_files::equal_faults_are_the_same();
}

//! `==` of the types of this crate. The law is the contract of a function that does nothing.

ghost use Rattle.std.specs.Prelude.{◌≡◌, ◌↔◌, IsTrue};
ghost use Rattle.outside.specs.declared.file_id.FileId.{FileId as FileType};
ghost use Rattle.outside.specs.declared.file_id.Operation.{Operation as OperationType};
ghost use Rattle.outside.specs.declared.file_id.Failure.{Failure as FailureType};
ghost use Rattle.outside.specs.declared.file_id.OutFault.{OutFault as FaultType};

use crate::{Failure, FileId, Operation, OutFault};

/// Law: two files, operations, failures or faults are `==` exactly where they are the same.
pub fn equal_values_are_the_same()
    ensures file { (one other : FileType) → IsTrue (⟦<FileId as PartialEq>⟧.eq one other) ↔ (one ≡ other) }
    ensures operation { (one other : OperationType) → IsTrue (⟦<Operation as PartialEq>⟧.eq one other) ↔ (one ≡ other) }
    ensures failure { (one other : FailureType) → IsTrue (⟦<Failure as PartialEq>⟧.eq one other) ↔ (one ≡ other) }
    ensures fault { (one other : FaultType) → IsTrue (⟦<OutFault as PartialEq>⟧.eq one other) ↔ (one ≡ other) }
{}

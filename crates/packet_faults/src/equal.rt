//! `==` of the types of this crate. The law is the contract of a function that does nothing.

ghost use Rattle.std.specs.Prelude.{◌≡◌, ◌↔◌, IsTrue};
ghost use Rattle.packet_faults.specs.declared.notice.Notice.{Notice as NoticeType};
ghost use Rattle.packet_faults.specs.declared.notice.Origin.{Origin as OriginType};

use crate::{Notice, Origin};

/// Law: what two errors say, and from where they come, is `==` exactly where it is the same.
pub fn equal_values_are_the_same()
    ensures notice { (one other : NoticeType) → IsTrue (⟦<Notice as PartialEq>⟧.eq one other) ↔ (one ≡ other) }
    ensures origin { (one other : OriginType) → IsTrue (⟦<Origin as PartialEq>⟧.eq one other) ↔ (one ≡ other) }
{
    octets::equal_values_are_the_same();
}

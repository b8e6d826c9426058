//! Which messages have a translation.

ghost use Rattle.std.specs.Prelude.{◌≡◌, ◌↔◌, IsNone, IfSome, Some};
ghost use Rattle.icmp_messages.specs.Table.{table46, table64, row_of};
ghost use Rattle.icmp_messages.specs.Rows.{HasNoRow46, HasNoRow64};

use crate::table::{Rest, Row, pointer46, pointer64, row46, row64};
use crate::{Icmp4, Icmp6};

impl Icmp4 {
    /// The row by which the message is translated to ICMPv6. None exactly where it has no translation: no row for its type and
    /// code, or none for its pointer.
    pub fn row(&self) -> Option<Row>
        ensures found { IfSome result (λ row. row_of table46 self.now.kind self.now.code ≡ Some row) }
        ensures none { IsNone result ↔ HasNoRow46 self.now }
    {
        let row = row46(self.kind, self.code)?;
        if matches!(row.rest, Rest::Pointer) && pointer46(self.rest >> 24).is_none() {
            return None;
        }
        Some(row)
    }
}

impl Icmp6 {
    /// The row by which the message is translated to ICMPv4. None exactly where it has no translation: no row for its type and
    /// code, or none for its pointer.
    pub fn row(&self) -> Option<Row>
        ensures found { IfSome result (λ row. row_of table64 self.now.kind self.now.code ≡ Some row) }
        ensures none { IsNone result ↔ HasNoRow64 self.now }
    {
        let row = row64(self.kind, self.code)?;
        if matches!(row.rest, Rest::Pointer) && pointer64(self.rest).is_none() {
            return None;
        }
        Some(row)
    }
}

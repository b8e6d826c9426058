//! ICMP messages of both versions with their sums (RFC 792, RFC 4443), the packets that ICMP errors embed, and the tables of
//! the types and codes that have a counterpart in the other version.
#![tactic(auto)]

mod check;
mod equal;
mod extension;
mod icmp4;
mod icmp6;
mod inner4;
mod inner6;
mod layout;
mod rows;
mod table;

pub use equal::equal_values_are_the_same;
pub use icmp4::Icmp4;
pub use icmp6::Icmp6;
pub use inner4::{Inner4, read_inner4};
pub use inner6::{Inner6, read_inner6};
pub use table::{PointerRow, Rest, Row, pointer46, pointer64, row46, row64};

//! The DHCPv6 options of MAP-T: a reader and a writer of S46_CONT_MAPT with its rules and its default mapping
//! rule (RFC 7598).
#![tactic(auto)]

mod codes;
mod container;
mod digits;
mod equal;
mod fault;
mod item;
mod laws;
mod options;
mod padding;
mod params;
mod prefixes;
mod read;
mod rule;
mod subs;
mod text;
mod write;

pub use container::Container;
pub use digits::{HexFault, read_hex};
pub use equal::equal_values_are_the_same;
pub use fault::OptionFault;
pub use item::Item;
pub use laws::{octets_read_as_one_container, the_fault_told_is_the_leftmost};
pub use read::read_container;
pub use subs::{Sub, Subs};
pub use text::{offset_in, options_text};
pub use write::write_container;

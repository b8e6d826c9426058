//! The plain types that every layer of the domain speaks of: addresses, prefixes, octets, names,
//! parcels, the causes for which a packet is dropped, numbers at their place among octets, and the numbers
//! of protocols and of ICMP types.
#![tactic(auto)]

mod address;
mod bytes;
mod cause;
mod equal;
mod field;
mod fragment;
pub mod icmp_type;
mod laws;
mod list;
mod memory;
mod mtus;
mod name;
mod numeral;
mod parcel;
mod prefix;
mod prefix_text;
mod proto;
pub mod protocol;
mod text4;
mod text6;

pub use address::{Addr4, Addr6, bits_of};
pub use bytes::Bytes;
pub use cause::{Cause, Fault};
pub use equal::{addresses_are_in_the_order_of_numbers, equal_values_are_the_same};
pub use field::{put_word, quad_at, sixteen_at, word_at};
pub use fragment::is_wrong_fragment;
pub use laws::{
    a_text_spells_one_value, an_ipv4_text_is_the_written_one,
    an_ipv6_text_is_shortened_by_the_rules, written_texts_are_read,
};
pub use list::List;
pub use memory::NoMemory;
pub use mtus::Mtus;
pub use name::Name;
pub use parcel::{Parcel, Parcels};
pub use prefix::{Prefix4, Prefix6};
pub use prefix_text::{read_prefix4, read_prefix6};
pub use proto::Proto;
pub use text4::{BadText, read_addr4};
pub use text6::read_addr6;

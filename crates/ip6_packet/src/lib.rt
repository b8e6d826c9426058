//! IPv6 packets by their grammar (RFC 8200): the header, its chain of extension headers, and the one
//! form in which a packet is written.
#![tactic(auto)]

mod chain;
mod destination;
mod embedded;
mod fault;
mod head;
mod laws;
mod layout;
mod read;

pub use chain::Chain;
pub use destination::destination_of;
pub use fault::is_no_destination;
pub use head::{Frag6, Head6};
pub use laws::{chains_are_read_by_their_grammar, equal_headers_are_the_same};
pub use layout::HEADER_LEN;

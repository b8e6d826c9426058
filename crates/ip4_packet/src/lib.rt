//! IPv4 packets by their grammar (RFC 791): the header with its options, and the one form in which a
//! packet is written.
#![tactic(auto)]

mod embedded;
mod fault;
mod head;
mod laws;
mod layout;
mod options;
mod read;

pub use fault::is_no_destination;
pub use head::Head4;
pub use laws::{equal_headers_are_the_same, options_are_read_by_their_grammar};
pub use layout::{DESTINATION_AT, HEADER_LEN, SOURCE_AT, SUM_AT};

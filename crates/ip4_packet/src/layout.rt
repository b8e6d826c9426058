//! Where the fields of the header stand, in octets from its start (RFC 791, section 3.1).

/// Octets of a header without options.
pub const HEADER_LEN: usize = 20;
/// Version and header length.
pub(crate) const VERSION_AT: usize = 0;
/// The type of service.
pub(crate) const TOS_AT: usize = 1;
/// The total length.
pub(crate) const TOTAL_AT: usize = 2;
/// The identification.
pub(crate) const ID_AT: usize = 4;
/// The flags and the fragment offset.
pub(crate) const FRAGMENT_AT: usize = 6;
/// The time to live.
pub(crate) const TTL_AT: usize = 8;
/// The protocol.
pub(crate) const PROTO_AT: usize = 9;
/// The sum of the header.
pub const SUM_AT: usize = 10;
/// The source address.
pub const SOURCE_AT: usize = 12;
/// The destination address.
pub const DESTINATION_AT: usize = 16;

/// The version.
pub(crate) const VERSION: u8 = 4;
/// The first four bits of a group address.
pub(crate) const GROUP: u32 = 14;
/// Version 4, and five words of 32 bits of header.
pub(crate) const VERSION_AND_LEN: u8 = 0x45;
/// The fragment offset is what the flags leave.
pub(crate) const OFFSETS: u16 = 1 << 13;
/// The flag "don't fragment" above the offset.
pub(crate) const DONT_FRAGMENT: u16 = 1 << 14;
/// The flag "more fragments" above the offset.
pub(crate) const MORE_FRAGMENTS: u16 = 1 << 13;

/// The kind that ends the list of options.
pub(crate) const OPTION_END: u8 = 0;
/// The option of one octet that does nothing.
pub(crate) const OPTION_NONE: u8 = 1;
/// A loose source route: a route that the packet has yet to take.
pub(crate) const LOOSE_ROUTE: u8 = 131;
/// A strict source route.
pub(crate) const STRICT_ROUTE: u8 = 137;
/// An option's length, its kind and this octet counted.
pub(crate) const OPTION_LEN_AT: usize = 1;
/// A source route's pointer to the next address.
pub(crate) const POINTER_AT: usize = 2;

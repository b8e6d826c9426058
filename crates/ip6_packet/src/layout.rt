//! Where the fields of the headers stand, in octets from the start of their header, and the numbers
//! that say which header comes next (RFC 8200, sections 3 and 4).

/// Octets of the IPv6 header.
pub const HEADER_LEN: usize = 40;
/// The version, and the first half of the traffic class.
pub(crate) const VERSION_AT: usize = 0;
/// The payload length.
pub(crate) const LENGTH_AT: usize = 4;
/// The number of what follows the IPv6 header.
pub(crate) const NEXT_AT: usize = 6;
/// The hop limit.
pub(crate) const HOP_AT: usize = 7;
/// The source address.
pub(crate) const SOURCE_AT: usize = 8;
/// The destination address.
pub(crate) const DESTINATION_AT: usize = 24;

/// The version.
pub(crate) const VERSION: u8 = 6;
/// The first octet of a group address.
pub(crate) const GROUP: u128 = 0xff;

/// Octets of the Fragment Header.
pub(crate) const FRAGMENT_LEN: usize = 8;
/// The offset, two reserved bits and the flag for more fragments.
pub(crate) const FRAGMENT_OFFSET_AT: usize = 2;
/// The identification.
pub(crate) const FRAGMENT_ID_AT: usize = 4;

/// The number of a Fragment Header.
pub(crate) const FRAGMENT: u8 = 44;

/// The number of a Hop-by-Hop Options header.
pub(crate) const HOP_BY_HOP: u8 = 0;
/// The number of a Routing header.
pub(crate) const ROUTING: u8 = 43;
/// The number of a Destination Options header.
pub(crate) const DESTINATION_OPTIONS: u8 = 60;

/// The number of what follows an extension header.
pub(crate) const EXTENSION_NEXT_AT: usize = 0;
/// The length of an extension header, in units of 8 octets behind its first 8.
pub(crate) const EXTENSION_LEN_AT: usize = 1;
/// The least length of an extension header in octets, and the unit of its length.
pub(crate) const EXTENSION_UNIT: usize = 8;
/// The count of segments left of a Routing header.
pub(crate) const SEGMENTS_LEFT_AT: usize = 3;

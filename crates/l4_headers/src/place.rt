//! Where fields stand in transport headers, in octets from their start (RFC 9293, section 3.1; RFC 768; RFC 792). They are for
//! headers of which only a part stands, as in the packet that an ICMP error embeds; a whole header has calls of its own.

/// The source port of TCP and UDP.
pub const SOURCE_PORT_AT: usize = 0;
/// Their destination port.
pub const DESTINATION_PORT_AT: usize = 2;
/// What stands behind both ports.
pub const PORTS_END: usize = 4;
/// The sum of TCP.
pub const TCP_SUM_AT: usize = 16;
/// The sum of UDP.
pub const UDP_SUM_AT: usize = 6;
/// The sum of ICMP.
pub const ICMP_SUM_AT: usize = 2;
/// The identifier of an ICMP query.
pub const IDENTIFIER_AT: usize = 4;
/// What stands behind the identifier.
pub const IDENTIFIER_END: usize = 6;

//! The numbers of upper protocols, in the protocol field of IPv4 and as a next header of IPv6 (IANA
//! protocol numbers; RFC 792, RFC 9293, RFC 768, RFC 4443).

/// ICMP over IPv4.
pub const ICMP4: u8 = 1;
/// TCP.
pub const TCP: u8 = 6;
/// UDP.
pub const UDP: u8 = 17;
/// ICMP over IPv6.
pub const ICMP6: u8 = 58;

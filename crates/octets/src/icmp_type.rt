//! The types of ICMP messages that the domain knows, of both versions (RFC 792, RFC 4443).

/// ICMPv4: echo reply.
pub const ECHO_REPLY4: u8 = 0;
/// ICMPv4: destination unreachable.
pub const UNREACHABLE4: u8 = 3;
/// ICMPv4: source quench.
pub const SOURCE_QUENCH4: u8 = 4;
/// ICMPv4: redirect.
pub const REDIRECT4: u8 = 5;
/// ICMPv4: echo request.
pub const ECHO_REQUEST4: u8 = 8;
/// ICMPv4: time exceeded.
pub const TIME_EXCEEDED4: u8 = 11;
/// ICMPv4: parameter problem.
pub const PARAMETER_PROBLEM4: u8 = 12;

/// ICMPv6: destination unreachable.
pub const UNREACHABLE6: u8 = 1;
/// ICMPv6: packet too big.
pub const TOO_BIG6: u8 = 2;
/// ICMPv6: time exceeded.
pub const TIME_EXCEEDED6: u8 = 3;
/// ICMPv6: parameter problem.
pub const PARAMETER_PROBLEM6: u8 = 4;
/// ICMPv6: the least type that is no error (RFC 4443, section 2.1).
pub const LEAST_INFORMATIONAL6: u8 = 128;
/// ICMPv6: echo request.
pub const ECHO_REQUEST6: u8 = 128;
/// ICMPv6: echo reply.
pub const ECHO_REPLY6: u8 = 129;

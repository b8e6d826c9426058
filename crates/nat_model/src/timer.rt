ghost use Rattle.std.specs.Prelude.{◌≡◌, ◌≤◌};
ghost use Rattle.nat_model.specs.Timer.{timer};

use octets::Proto;

/// A second, in microseconds.
const SECOND: u64 = 1_000_000;

/// UDP (RFC 4787, section 4.3, requirement 5).
const UDP: u64 = 300 * SECOND;

/// Queries of ICMP (RFC 5508, section 3.2, requirement 2).
const ICMP: u64 = 60 * SECOND;

/// TCP before its connection is established, and once it is (RFC 5382, section 5, requirement 5).
const TCP: u64 = 240 * SECOND;

const LIVE_TCP: u64 = 7440 * SECOND;

/// How long a binding stays without a flow that refreshes it, in microseconds.
pub(crate) fn timer(proto: Proto, live: bool) -> u64
    ensures value { result ≡ timer proto live }
    ensures most { result ≤ 7440000000 }
{
    match proto {
        Proto::Tcp if live => LIVE_TCP,
        Proto::Tcp => TCP,
        Proto::Udp => UDP,
        Proto::Icmp => ICMP,
    }
}

//! Where octets are to go, whatever else is wrong with them.

ghost use Rattle.std.specs.Prelude.{◌≡◌};
ghost use Rattle.std.specs.Option.{option_map};
ghost use Rattle.ip6_packet.specs.Destination.{destination_in};

use crate::layout::{DESTINATION_AT, HEADER_LEN, VERSION, VERSION_AT};
use octets::{Addr6, sixteen_at};

/// The destination of an IPv6 packet, as routing looks at it before any cause to drop the packet (RFC 8200, section 3). None
/// where the octets have no room for a header, or are of another version.
pub fn destination_of(octets: &[u8]) -> Option<Addr6>
    ensures { option_map (λ addr. addr.0) result ≡ destination_in octets.now }
{
    if octets.len() < HEADER_LEN || octets[VERSION_AT] / 16 != VERSION {
        return None;
    }
    Some(Addr6(sixteen_at(octets, DESTINATION_AT)))
}

//! The packet inside an ICMP error (RFC 792), of which nothing but its header's place is judged.

ghost use Rattle.std.specs.Prelude.{◌≡◌, IfSome, IfNone};
ghost use Rattle.ip4_packet.specs.Grammar.{payload_of4};
ghost use Rattle.ip4_packet.specs.Embedded.{HasHeader4, LacksHeader4};

use crate::fault::{header_len, is_not_ip};
use crate::head::Head4;
use crate::layout::HEADER_LEN;
use crate::read::fields;

impl Head4 {
    /// The header at the front of an embedded packet (RFC 792). Its declared length may pass the octets
    /// that stand. Sum, options, fragment fields and destination aren't looked at, so `routed` is false.
    ///
    /// None exactly where no header stands there: another version, a header length below 20, or fewer
    /// octets than the header has.
    pub fn read_embedded(octets: &[u8]) -> Option<Head4>
        ensures header { IfSome result (λ h. HasHeader4 h octets.now) }
        ensures lacking { IfNone result (LacksHeader4 octets.now) }
    {
        if octets.len() < HEADER_LEN || is_not_ip(octets) {
            return None;
        }
        let len = header_len(octets);
        if len < HEADER_LEN || octets.len() < len {
            return None;
        }
        Some(fields(octets, false))
    }

    /// The payload among the octets that begin with this header: those behind the header, up to the
    /// declared total length or, of a packet that was cut, as far as they stand.
    pub fn payload<'a>(&self, octets: &'a [u8]) -> &'a [u8]
        ensures { result.now ≡ payload_of4 self.now octets.now }
    {
        let end = octets.len().min(usize::from(self.total));
        let start = end.min(usize::from(self.head_len));
        &octets[start..end]
    }
}

ghost use Rattle.std.specs.Prelude.{◌↔◌, ◌<◌, IsTrue};
ghost use Rattle.octets.specs.Bits.{bit_of};
ghost use Rattle.octets.specs.Fragment.{IsWrongFragment};

/// The octets of the greatest payload.
const MAX_LEN: usize = 65535;

/// The unit of a fragment's offset, in octets.
const UNIT: usize = 8;

/// Whether the fields of a fragment disagree with its payload of this length: it ends past the greatest
/// payload, or more fragments follow one that has a broken unit of 8 octets. The offset is in units of 8
/// octets (RFC 791, section 3.2; RFC 8200, section 4.5).
pub fn is_wrong_fragment(offset: u16, more: bool, len: usize) -> bool
    requires { len < 65536 }
    ensures { IsTrue result ↔ IsWrongFragment offset (bit_of more) len }
{
    usize::from(offset) * UNIT + len > MAX_LEN || more && len % UNIT != 0
}

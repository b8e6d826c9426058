//! Numbers of several octets at their place, the highest octet first (RFC 791, appendix B).
ghost use Rattle.std.specs.Prelude.{◌≡◌, ◌+◌, ◌≤◌, length};
ghost use Rattle.octets.specs.Field.{word, quad, sixteen, with_word};

use byteorder::{BigEndian, ByteOrder};

/// The number of 16 bits at this place.
pub fn word_at(octets: &[u8], at: usize) -> u16
    requires { at + 2 ≤ length octets.now }
    ensures { result ≡ word octets.now at }
{
    BigEndian::read_u16(&octets[at..])
}

/// Writes a number of 16 bits over the two octets at this place.
pub fn put_word(octets: &mut [u8], at: usize, number: u16)
    requires { at + 2 ≤ length octets.old }
    ensures written { octets.new ≡ with_word at number octets.old }
    ensures len { length octets.new ≡ length octets.old }
{
    octets[at..at + 2].copy_from_slice(&number.to_be_bytes());
}

/// The number of 32 bits at this place.
pub fn quad_at(octets: &[u8], at: usize) -> u32
    requires { at + 4 ≤ length octets.now }
    ensures { result ≡ quad octets.now at }
{
    BigEndian::read_u32(&octets[at..])
}

/// The number of 128 bits at this place.
pub fn sixteen_at(octets: &[u8], at: usize) -> u128
    requires { at + 16 ≤ length octets.now }
    ensures { result ≡ sixteen octets.now at }
{
    BigEndian::read_u128(&octets[at..])
}

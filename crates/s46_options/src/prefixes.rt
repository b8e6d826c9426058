//! The prefixes in the options: their bits, and what may not be set past them.

ghost use Rattle.std.specs.Prelude.{◌≡◌, ◌+◌, ◌≤◌, ◌<◌, ◌^◌, ◌++◌, [], length, IfOk, IfErr, OnOk, Some};
ghost use Rattle.octets.specs.Field.{quad};
ghost use Rattle.s46_options.specs.Items.{octets_for, prefix_octets};
ghost use Rattle.s46_options.specs.Faults.{over, padding, prefix_number, first};

use crate::OptionFault;
use crate::padding::zero_octets;
use byteorder::{BigEndian, ByteOrder};
use octets::{Addr4, Addr6, Bytes, NoMemory, Prefix4, Prefix6, bits_of};

/// The greatest length of an IPv4 and of an IPv6 prefix.
const MOST_LEN4: u8 = 32;

pub(crate) const MOST_LEN6: u8 = 128;

/// The least number of whole octets that hold so many bits.
pub(crate) fn octets_for(len: u8) -> usize
    ensures { result ≡ octets_for len }
{
    (usize::from(len) + 7) / 8
}

/// The IPv4 prefix whose length stands at the place, and its bits behind it.
pub(crate) fn read_prefix4(at: u32, len: u8, octets: &[u8]) -> Result<Prefix4, OptionFault>
    requires place { at ≤ 70000 }
    requires whole { 4 ≤ length octets.now }
    ensures sound { OnOk result (over at 32 len ++ padding (at + 1) 4 (quad octets.now 0) len ≡ []) }
    ensures bits { IfOk result (λ p. p.bits ≡ quad octets.now 0) }
    ensures length { IfOk result (λ p. p.len ≡ len) }
    ensures refused { IfErr result (λ e. first (over at 32 len ++ padding (at + 1) 4 (quad octets.now 0) len) ≡ Some e) }
{
    if len > MOST_LEN4 {
        return Err(OptionFault::BadPrefixLen(at));
    }
    let bits = BigEndian::read_u32(octets);
    match Prefix4::new(Addr4(bits), len) {
        Some(prefix) => Ok(prefix),
        None => {
            let past = u64::from(bits) % (1 << (MOST_LEN4 - len));
            Err(OptionFault::Padding(at + 1 + zero_octets(4, u128::from(past))))
        }
    }
}

/// The number of 128 bits whose first octets are these, and whose others are 0.
#[tactic(auto, unfolding(crate::specs::Faults::prefix_number))]
fn prefix_number(octets: &[u8]) -> u128
    requires { length octets.now ≤ 16 }
    ensures { result ≡ prefix_number octets.now }
{
    let mut whole = [0; 16];
    whole[..octets.len()].copy_from_slice(octets);
    BigEndian::read_u128(&whole)
}

/// The IPv6 prefix of this length whose octets stand at the place.
pub(crate) fn read_prefix6(at: u32, len: u8, octets: &[u8]) -> Result<Prefix6, OptionFault>
    requires place { at ≤ 70000 }
    requires most { len ≤ 128 }
    requires whole { length octets.now ≡ octets_for len }
    ensures sound { OnOk result (padding at 16 (prefix_number octets.now) len ≡ []) }
    ensures bits { IfOk result (λ p. p.bits ≡ prefix_number octets.now) }
    ensures length { IfOk result (λ p. p.len ≡ len) }
    ensures refused { IfErr result (λ e. first (padding at 16 (prefix_number octets.now) len) ≡ Some e) }
{
    let addr = Addr6(prefix_number(octets));
    match Prefix6::new(addr, len) {
        Some(prefix) => Ok(prefix),
        None => {
            let past = bits_of(addr, len, MOST_LEN6 - len);
            Err(OptionFault::Padding(at + zero_octets(16, past)))
        }
    }
}

/// Adds the bits of a prefix in the least number of whole octets.
pub(crate) fn push_prefix6(out: &mut Bytes, prefix: &Prefix6) -> Result<(), NoMemory>
    ensures octets { OnOk result (out.new ≡ out.old ++ prefix_octets prefix.now) }
    ensures bits { prefix.now.bits < 2 ^ 128 }
{
    let mut whole = [0; 16];
    let bits = prefix.bits;
    BigEndian::write_u128(&mut whole, bits);
    out.extend(&whole[..octets_for(prefix.len)])
}

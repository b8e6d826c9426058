//! Bits that are set past the end of a prefix or a PSID.

ghost use Rattle.std.specs.Prelude.{◌≡◌, ◌+◌, ◌≤◌};
ghost use Rattle.s46_options.specs.Faults.{zero_octets};

/// How many octets stand before the first that isn't 0, of a number's so many octets.
pub(crate) fn zero_octets(count: u8, number: u128) -> u32
    requires { count ≤ 16 }
    ensures value { result ≡ zero_octets count number }
    ensures most { result ≤ count }
{
    if count == 0 {
        return 0;
    }
    let higher = count - 1;
    if number >> (8 * higher) != 0 {
        return 0;
    }
    1 + zero_octets(higher, number)
}

ghost use Rattle.std.specs.Prelude.{◌≡◌, ◌+◌, ◌≤◌};
ghost use Rattle.octets.specs.Bits.{bits_at};

/// An IPv4 address as a number, the first octet highest.
#[derive(Clone, Copy, Debug, PartialEq, Eq, PartialOrd, Ord, Hash)]
pub struct Addr4(pub u32);

/// An IPv6 address as a number, the first octet highest.
#[derive(Clone, Copy, Debug, PartialEq, Eq, PartialOrd, Ord, Hash)]
pub struct Addr6(pub u128);

/// The number in `count` bits of an address from bit `from` on. Bits are counted from the left, from 0.
pub fn bits_of(addr: Addr6, from: u8, count: u8) -> u128
    requires { from + count ≤ 128 }
    ensures { result ≡ bits_at 128 addr.0 from count }
{
    if count == 0 {
        return 0;
    }
    let shifted = addr.0 >> (128 - (from + count));
    if count == 128 {
        return shifted;
    }
    shifted % (1 << count)
}

ghost use Rattle.std.specs.Prelude.{◌≡◌, ◌≤◌, ◌-◌, ◌^◌, ◌%◌, ◌↔◌, IsTrue, IsSome, IfSome};
ghost use Rattle.octets.specs.Bits.{bits_at, IsClearFrom, SameFirst};

use crate::address::bits_of;
use crate::{Addr4, Addr6};

/// An IPv4 prefix: the first `len` bits of `bits`. The bits past the length are zero.
#[derive(Clone, Copy, Debug, PartialEq, Eq, Hash)]
pub struct Prefix4 {
    pub bits: u32,
    pub len: u8,
    ghost within: { len ≤ 32 },
    ghost clear: { IsClearFrom 32 bits len },
}

/// An IPv6 prefix: the first `len` bits of `bits`. The bits past the length are zero.
#[derive(Clone, Copy, Debug, PartialEq, Eq, Hash)]
pub struct Prefix6 {
    pub bits: u128,
    pub len: u8,
    ghost within: { len ≤ 128 },
    ghost clear: { IsClearFrom 128 bits len },
}

impl Prefix4 {
    /// The prefix of this address and length, or `None` where the length is over 32 or a bit past it is set.
    pub fn new(addr: Addr4, len: u8) -> Option<Prefix4>
        ensures valid { IsSome result ↔ ((len ≤ 32) × IsClearFrom 32 addr.0 len) }
        ensures bits { IfSome result (λ p. p.bits ≡ addr.0) }
        ensures length { IfSome result (λ p. p.len ≡ len) }
    {
        if len > 32 {
            return None;
        }
        if u64::from(addr.0) % (1 << (32 - len)) != 0 {
            return None;
        }
        Some(Prefix4 { bits: addr.0, len })
    }

    /// Whether the address is inside the prefix.
    pub fn has(&self, addr: Addr4) -> bool
        ensures { IsTrue result ↔ SameFirst 32 self.now.len self.now.bits addr.0 }
    {
        let past = 32 - self.len;
        u64::from(self.bits) >> past == u64::from(addr.0) >> past
    }
}

impl Prefix6 {
    /// The prefix of this address and length, or `None` where the length is over 128 or a bit past it is set.
    pub fn new(addr: Addr6, len: u8) -> Option<Prefix6>
        ensures valid { IsSome result ↔ ((len ≤ 128) × IsClearFrom 128 addr.0 len) }
        ensures bits { IfSome result (λ p. p.bits ≡ addr.0) }
        ensures length { IfSome result (λ p. p.len ≡ len) }
    {
        if len > 128 {
            return None;
        }
        if bits_of(addr, len, 128 - len) != 0 {
            return None;
        }
        Some(Prefix6 { bits: addr.0, len })
    }

    /// Whether the address is inside the prefix.
    pub fn has(&self, addr: Addr6) -> bool
        ensures { IsTrue result ↔ SameFirst 128 self.now.len self.now.bits addr.0 }
    {
        let bits = self.bits;
        if self.len == 0 {
            // A shift by all 128 bits isn't to be had.
            return true;
        }
        let past = 128 - self.len;
        bits >> past == addr.0 >> past
    }

    /// Whether the other prefix is at least as long and begins with this one's bits.
    pub fn begins(&self, other: &Prefix6) -> bool
        ensures { IsTrue result ↔ ((self.now.len ≤ other.now.len) × SameFirst 128 self.now.len self.now.bits other.now.bits) }
    {
        self.len <= other.len && self.has(Addr6(other.bits))
    }
}

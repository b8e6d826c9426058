ghost use Rattle.std.specs.Prelude.{◌≡◌, ◌≢◌, ℕ, ◌^◌, ◌<◌, ◌↔◌, IsTrue, IsSome, IfSome, IfNone, option_map};
ghost use Rattle.map_rules.specs.Embedding.{embedded, extract_of, is_embedding_prefix};

use crate::place::place;
use octets::{Addr4, Addr6, Prefix6, bits_of};

/// The default mapping rule: IPv4 addresses that no rule gives are embedded under its prefix (RFC 6052,
/// section 2.2; RFC 7599, section 5).
#[derive(Clone, Copy, Debug, PartialEq, Eq, Hash)]
pub struct Dmr {
    /// The prefix, of 32, 40, 48, 56, 64 or 96 bits; with 96 its bits 64 to 71 are zero.
    pub prefix: Prefix6,
    ghost valid: { IsTrue (is_embedding_prefix prefix.bits prefix.len) },
}

/// The first of the eight bits that an embedded address skips.
const SKIPPED: u8 = 64;

/// The first bit after those.
const AFTER_SKIPPED: u8 = 72;

impl Dmr {
    /// The default mapping rule with this prefix, or `None` where its length isn't one of an embedding or,
    /// with 96 bits, one of its bits 64 to 71 is set.
    pub fn new(prefix: Prefix6) -> Option<Dmr>
        ensures valid { IsSome result ↔ IsTrue (is_embedding_prefix prefix.bits prefix.len) }
        ensures prefix { IfSome result (λ dmr. dmr.prefix ≡ prefix) }
    {
        let fits = match prefix.len {
            32 | 40 | 48 | 56 | 64 => true,
            96 => bits_of(Addr6(prefix.bits), SKIPPED, AFTER_SKIPPED - SKIPPED) == 0,
            _ => false,
        };
        if fits { Some(Dmr { prefix }) } else { None }
    }

    /// The address embedded under the prefix.
    pub fn embed(&self, addr: Addr4) -> Addr6
        ensures { result.0 ≡ embedded self.now.prefix.bits self.now.prefix.len addr.0 }
    {
        let (bits, len) = (self.prefix.bits, self.prefix.len);
        if len == 96 {
            return Addr6(bits + u128::from(addr.0));
        }
        let (before, behind) = (SKIPPED - len, len - 32);
        let addr = u64::from(addr.0);
        let first = place(u128::from(addr >> behind), len, before);
        let rest = place(u128::from(addr % (1 << behind)), AFTER_SKIPPED, behind);
        Addr6(bits + (first + rest))
    }

    /// The address that is embedded so under the prefix, or `None` where none is: the prefix is another,
    /// or a skipped or later bit is set.
    pub fn extract(&self, addr: Addr6) -> Option<Addr4>
        ensures found { IfSome result (λ a. embedded self.now.prefix.bits self.now.prefix.len a.0 ≡ addr.0) }
        ensures none { IfNone result ((a : ℕ) → a < 2 ^ 32 → embedded self.now.prefix.bits self.now.prefix.len a ≢ addr.0) }
        ensures value { option_map (λ a. a.0) result ≡ extract_of self.now.prefix.bits self.now.prefix.len addr.0 }
    {
        let cut = self.cut(addr);
        if self.embed(cut) == addr {
            Some(cut)
        } else {
            None
        }
    }

    /// The 32 bits of the address at which an embedded address stands.
    fn cut(&self, addr: Addr6) -> Addr4
        ensures { (a : ℕ) → a < 2 ^ 32 → embedded self.now.prefix.bits self.now.prefix.len a ≡ addr.0 → result.0 ≡ a }
    {
        let len = self.prefix.len;
        if len == 96 {
            return Addr4(bits_of(addr, 96, 32) as u32);
        }
        let (before, behind) = (SKIPPED - len, len - 32);
        let first = bits_of(addr, len, before);
        let rest = bits_of(addr, AFTER_SKIPPED, behind);
        Addr4(((first << behind) + rest) as u32)
    }
}

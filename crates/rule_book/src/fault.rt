ghost use Rattle.std.specs.Prelude.{◌≡◌};
ghost use Rattle.rule_book.specs.declared.fault.BookFault.TheVariants.{NoMemory as OutOfMemory};

use octets::NoMemory;

/// Why rules are refused, in the order in which it is tested. A rule is named by its place in the list, a
/// pair of rules by the places of both, the earlier first. Of several pairs the one with the least later
/// rule is named, and of these the one with the least earlier rule.
#[derive(Clone, Copy, Debug, PartialEq, Eq, Hash)]
pub enum BookFault {
    /// There are more than 256 rules.
    TooManyRules,
    /// No rule has the IPv6 prefix that the change names.
    NoSuchRule,
    /// The added rule is equal to this one.
    RuleThere(u32),
    /// The IPv4 prefixes of these two overlap.
    Overlap4(u32, u32),
    /// The IPv6 prefixes of these two overlap.
    Overlap6(u32, u32),
    /// The IPv6 prefix of this one and that of the default mapping rule overlap.
    OverlapDmr(u32),
    /// Memory ran out.
    NoMemory,
}

impl From<NoMemory> for BookFault {
    ghost from_gives = { λ _ e. e ≡ OutOfMemory };

    fn from(_: NoMemory) -> Self {
        BookFault::NoMemory
    }
}

ghost use Rattle.std.specs.Prelude.{◌≡◌};
ghost use Rattle.rule_book.specs.Overlap.{begins4, overlaps4, begins6, overlaps6};

use octets::{Addr4, Prefix4, Prefix6};

/// Whether the other prefix is at least as long and begins with this one's bits.
fn begins4(prefix: &Prefix4, other: &Prefix4) -> bool
    ensures { result ≡ begins4 prefix.now other.now }
{
    prefix.len <= other.len && prefix.has(Addr4(other.bits))
}

/// Whether the two have an address in common.
pub(crate) fn overlaps4(prefix: &Prefix4, other: &Prefix4) -> bool
    ensures { result ≡ overlaps4 prefix.now other.now }
{
    begins4(prefix, other) || begins4(other, prefix)
}

/// Whether the other prefix is at least as long and begins with this one's bits.
fn begins6(prefix: &Prefix6, other: &Prefix6) -> bool
    ensures { result ≡ begins6 prefix.now other.now }
{
    prefix.begins(other)
}

/// Whether the two have an address in common.
pub(crate) fn overlaps6(prefix: &Prefix6, other: &Prefix6) -> bool
    ensures { result ≡ overlaps6 prefix.now other.now }
{
    begins6(prefix, other) || begins6(other, prefix)
}

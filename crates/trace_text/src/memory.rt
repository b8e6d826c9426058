//! Numbers fit their fields in whatever stands in memory: what the laws of crossings ask of octets, rules and bindings is what their
//! types keep. Each law is the contract of a function that does nothing.

ghost use Rattle.std.specs.Prelude.{◌<◌, ◌^◌};
ghost use Rattle.trace_text.specs.Hops.{AreOctets};
ghost use Rattle.rule_book.specs.Valid.{FitsRule};
ghost use Rattle.trace_text.specs.Numbers.{FitsBinding};

use map_rules::{Dmr, Rule};
use nat_model::Binding;

/// Octets are below 256.
pub fn octets_fit(octets: &[u8])
    ensures { AreOctets octets.now }
{}

/// The prefixes of a rule are those of IPv4 and IPv6 addresses.
pub fn a_rule_fits(rule: Rule)
    ensures { FitsRule rule }
{}

/// The prefix of a default mapping rule is that of IPv6 addresses.
pub fn a_default_rule_fits(dmr: Dmr)
    ensures { dmr.prefix.bits < 2 ^ 128 }
{}

/// Both ports of a binding are below 65536.
pub fn a_binding_fits(binding: Binding)
    ensures { FitsBinding binding }
{}

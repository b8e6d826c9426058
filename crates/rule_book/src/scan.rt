ghost use Rattle.std.specs.Prelude.{◌≡◌};
ghost use Rattle.std.specs.Option.{option_map};
ghost use Rattle.rule_book.specs.Owner.{owner_of, forward_of, covers_of};
ghost use Rattle.rule_book.specs.Far.{far_embedded, far_under, far_by_rule, far_of};
ghost use Rattle.rule_book.specs.Holder.{holder_in, holder_of};

use crate::FarOf;
use map_rules::{Dmr, EdgeId, Rule};
use octets::{Addr4, Addr6, Prefix6};

/// What the edge with this prefix holds, under the rule that has it.
pub(crate) fn edge_of(rules: &[Rule], prefix: Prefix6) -> Option<EdgeId>
    ensures { option_map holder_in result ≡ holder_of rules.now prefix }
{
    for rule in rules {
        if let Some(edge) = rule.edge_of(prefix) {
            return Some(edge);
        }
    }
    None
}

/// The MAP address of an IPv4 address and port, under the rule that gives one.
pub(crate) fn owner(rules: &[Rule], addr: Addr4, port: u16) -> Option<Addr6>
    ensures { option_map (λ own. own.0) result ≡ owner_of rules.now addr.0 port }
{
    for rule in rules {
        if let Some(own) = rule.ce6(addr, port) {
            return Some(own);
        }
    }
    None
}

/// The same among the forwarding mapping rules.
pub(crate) fn forward(rules: &[Rule], addr: Addr4, port: u16) -> Option<Addr6>
    ensures { option_map (λ own. own.0) result ≡ forward_of rules.now addr.0 port }
{
    for rule in rules {
        if !rule.forward {
            continue;
        }
        if let Some(own) = rule.ce6(addr, port) {
            return Some(own);
        }
    }
    None
}

/// Whether some rule's IPv4 prefix has the address.
pub(crate) fn covers4(rules: &[Rule], addr: Addr4) -> bool
    ensures { result ≡ covers_of rules.now addr.0 }
{
    rules.iter().any(|rule| rule.prefix4.has(addr))
}

/// Which IPv4 address stands behind an IPv6 source address and a port.
pub(crate) fn far4(rules: &[Rule], dmr: &Dmr, s: Addr6, port: u16) -> FarOf
    ensures { result ≡ far_of rules.now dmr.now s.0 port }
{
    if dmr.prefix.has(s) {
        far_embedded(dmr, s)
    } else {
        far_by_rule(rules, s, port)
    }
}

/// The address that stands behind it under the rule whose IPv6 prefix has it.
fn far_by_rule(rules: &[Rule], s: Addr6, port: u16) -> FarOf
    ensures { result ≡ far_by_rule rules.now s.0 port }
{
    for rule in rules {
        if rule.prefix6.has(s) {
            return far_under(rule, s, port);
        }
    }
    FarOf::NotDefault
}

/// The address that is embedded under the default mapping rule.
fn far_embedded(dmr: &Dmr, s: Addr6) -> FarOf
    ensures { result ≡ far_embedded dmr.now s.0 }
{
    match dmr.extract(s) {
        Some(addr) => FarOf::Addr(addr),
        None => FarOf::NotDefault,
    }
}

/// The address whose MAP address under the rule it is, where the port is in that address's port set.
fn far_under(rule: &Rule, s: Addr6, port: u16) -> FarOf
    ensures { result ≡ far_under rule.now s.0 port }
{
    let Some((addr, ports)) = rule.source(s) else {
        return FarOf::Spoofed;
    };
    if ports.has(port) {
        FarOf::Addr(addr)
    } else {
        FarOf::Spoofed
    }
}

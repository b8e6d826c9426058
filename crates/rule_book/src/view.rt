ghost use Rattle.std.specs.Prelude.{◌≡◌, ◌<◌, ◌↔◌, List, ℕ, IsTrue, length, slice_get};
ghost use Rattle.std.specs.Option.{option_map};
ghost use Rattle.rule_book.specs.Owner.{owner_of, forward_of, covers_of};

use map_rules::{Dmr, EdgeId, Rule};
use octets::{Addr4, Addr6, Prefix6};

/// What stands behind an IPv6 source address and a port.
#[derive(Clone, Copy, Debug, PartialEq, Eq, Hash)]
pub enum FarOf {
    /// This IPv4 address.
    Addr(Addr4),
    /// The address is inside a rule's IPv6 prefix and isn't that rule's MAP address for the port.
    Spoofed,
    /// The address is in no rule, and no address is embedded in it under the default mapping rule.
    NotDefault,
}

/// The rules of one generation, however they are kept. Each answer is a function of the list of rules and
/// the default mapping rule, which are always a valid book, and takes no memory.
pub trait RuleView {
    ghost use Rattle.map_rules.specs.declared.rule.Rule.{Rule as RuleType};
    ghost use Rattle.map_rules.specs.declared.dmr.Dmr.{Dmr as DmrType};
    ghost use Rattle.rule_book.specs.Valid.{IsValid};
    ghost use Rattle.rule_book.specs.Far.{far_of};
    ghost use Rattle.rule_book.specs.Holder.{holder_in, holder_of};

    /// The rules in their order.
    ghost rules: { Self → List RuleType };

    /// The default mapping rule.
    ghost default_rule: { Self → DmrType };

    /// The number of the generation.
    ghost number: { Self → ℕ };

    /// The number of the generation, from 0.
    fn generation(&self) -> u32
        ensures { result ≡ number self.now };

    /// The default mapping rule.
    fn dmr(&self) -> Dmr
        ensures { result ≡ default_rule self.now };

    /// How many rules there are, at most 256.
    fn count(&self) -> u32
        ensures { result ≡ length (rules self.now) };

    /// The rule at this place, or `None` where there are no more than `i` rules.
    fn rule(&self, i: u32) -> Option<Rule>
        ensures { result ≡ slice_get (rules self.now) i };

    /// What the edge with this IPv6 prefix holds: the IPv4 address, the port set and its own address that
    /// the EA bits give under the rule whose IPv6 prefix begins it, and `None` where no rule has such an
    /// edge (RFC 7597, section 5.2).
    fn edge_of(&self, p: Prefix6) -> Option<EdgeId>
        ensures { option_map holder_in result ≡ holder_of (rules self.now) p };

    /// The MAP address of an IPv4 address and port, or `None` where no rule gives one (RFC 7597, section 5).
    fn owner(&self, addr: Addr4, port: u16) -> Option<Addr6>
        ensures { option_map (λ own. own.0) result ≡ owner_of (rules self.now) addr.0 port };

    /// The same among the forwarding mapping rules, by which an edge reaches another one directly.
    fn forward(&self, addr: Addr4, port: u16) -> Option<Addr6>
        ensures { option_map (λ own. own.0) result ≡ forward_of (rules self.now) addr.0 port };

    /// Whether some rule's IPv4 prefix has the address.
    fn covers4(&self, addr: Addr4) -> bool
        ensures { result ≡ covers_of (rules self.now) addr.0 };

    /// Which IPv4 address stands behind an IPv6 source address and a port: inside the default mapping rule
    /// the embedded one, and inside a rule's IPv6 prefix the one whose MAP address it is, where the port is
    /// in that address's port set.
    fn far4(&self, s: Addr6, port: u16) -> FarOf
        ensures { result ≡ far_of (rules self.now) (default_rule self.now) s.0 port };

    /// The list and the default mapping rule are a valid book.
    ghost valid: { (view : Self) → IsValid (rules view) (default_rule view) };
}

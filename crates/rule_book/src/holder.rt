ghost use Rattle.std.specs.Prelude.{◌≡◌, ℕ};
ghost use Rattle.std.specs.Option.{option_map};
ghost use Rattle.octets.specs.declared.prefix.Prefix6.{Prefix6};
ghost use Rattle.rule_book.specs.Owner.{owner_of};
ghost use Rattle.rule_book.specs.Holder.{holder_of, Holds};

use crate::RuleView;

/// Law: in one generation an IPv4 address and port have at most one holder among the edges, which is told by
/// its IPv6 prefix, and the owner of the address and port is that holder's own address.
pub fn one_holder<V: RuleView>(view: &V)
    ensures one { (p q : Prefix6) (addr port : ℕ)
        → Holds (V.rules view.now) p addr port
        → Holds (V.rules view.now) q addr port
        → (p.bits ≡ q.bits) × (p.len ≡ q.len) }
    ensures owner { (p : Prefix6) (addr port : ℕ)
        → Holds (V.rules view.now) p addr port
        → owner_of (V.rules view.now) addr port
        ≡ option_map (λ h. h.own6) (holder_of (V.rules view.now) p) }
{}

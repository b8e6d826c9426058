ghost use Rattle.std.specs.Prelude.{◌≡◌, ℕ, ◌^◌, ◌<◌, ◌↔◌, IsTrue, Some};
ghost use Rattle.octets.specs.Bits.{IsClearFrom, SameFirst};
ghost use Rattle.port_set.specs.PortSet.{in_set};
ghost use Rattle.map_rules.specs.Embedding.{embedded, extract_of, is_embedding_prefix};
ghost use Rattle.map_rules.specs.Address.{psid_of};
ghost use Rattle.map_rules.specs.Rule.{psid_len, ce6_of, IsSource, source_of, HasEdge, edge_address, edge_psid};
ghost use Rattle.map_rules.specs.declared.rule.Rule.{Rule as RuleType};

/// Law: the source of a MAP address has it, with each port of the source's set.
pub fn a_source_has_its_address()
    ensures { (rule : RuleType) (s addr v x : ℕ)
        → IsSource rule s addr v
        → IsTrue (in_set rule.offset (psid_len rule) v x)
        → ce6_of rule addr x ≡ Some s }
{}

/// Law: the MAP address of an IPv4 address and a port has this address as its source, and a port set
/// that has the port.
pub fn an_address_has_its_source()
    ensures { (rule : RuleType) (s addr x : ℕ)
        → addr < 2 ^ 32
        → ce6_of rule addr x ≡ Some s
        → IsSource rule s addr (psid_of rule.offset (psid_len rule) x)
        × IsTrue (in_set rule.offset (psid_len rule) (psid_of rule.offset (psid_len rule) x) x) }
{}

/// Law: two IPv4 addresses and PSIDs with one MAP address under one rule are equal.
pub fn a_map_address_has_one_source()
    ensures { (rule : RuleType) (s addr v other w : ℕ)
        → IsSource rule s addr v
        → IsSource rule s other w
        → (addr ≡ other) × (v ≡ w) }
{}

/// Law: a MAP address is inside its rule's IPv6 prefix.
pub fn map_addresses_are_inside_the_rule()
    ensures { (rule : RuleType) (s addr v : ℕ)
        → IsSource rule s addr v
        → SameFirst 128 rule.prefix6.len rule.prefix6.bits s }
{}

/// Law: two edges of one rule that hold one IPv4 address and PSID have one prefix.
pub fn edges_of_a_rule_hold_apart()
    ensures { (rule : RuleType) (bits len other end : ℕ)
        → HasEdge rule bits len
        → HasEdge rule other end
        → IsClearFrom 128 bits len
        → IsClearFrom 128 other end
        → edge_address rule bits ≡ edge_address rule other
        → edge_psid rule bits ≡ edge_psid rule other
        → (bits ≡ other) × (len ≡ end) }
{}

/// Law: two IPv4 addresses that are embedded as one are equal.
pub fn embedding_is_one_to_one()
    ensures { (bits len a b : ℕ)
        → IsTrue (is_embedding_prefix bits len)
        → IsClearFrom 128 bits len
        → a < 2 ^ 32
        → b < 2 ^ 32
        → embedded bits len a ≡ embedded bits len b
        → a ≡ b }
{}

/// Law: an embedded address is inside the prefix.
pub fn embedded_addresses_are_inside_the_prefix()
    ensures { (bits len a : ℕ)
        → IsTrue (is_embedding_prefix bits len)
        → IsClearFrom 128 bits len
        → a < 2 ^ 32
        → SameFirst 128 len bits (embedded bits len a) }
{}

/// Law: what stands behind an IPv6 address under a rule is its source, where it has one, and under the
/// default mapping rule the address that is embedded in it.
pub fn sources_are_told()
    ensures rule { (rule : RuleType) (s addr v : ℕ) → (source_of rule s ≡ Some (addr, v)) ↔ IsSource rule s addr v }
    ensures embedded { (bits len s a : ℕ)
        → IsTrue (is_embedding_prefix bits len)
        → IsClearFrom 128 bits len
        → (extract_of bits len s ≡ Some a) ↔ ((a < 2 ^ 32) × (embedded bits len a ≡ s)) }
{}

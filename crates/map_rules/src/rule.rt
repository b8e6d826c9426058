ghost use Rattle.std.specs.Prelude.{◌≡◌, ℕ, ◌+◌, ◌-◌, ◌/◌, ◌%◌, ◌^◌, ◌<◌, ◌≤◌, ◌↔◌, IsSome, IfSome, IfNone, IfOk, MatchOption, Some, None, option_map};
ghost use Rattle.std.specs.Result.{result_err};
ghost use Rattle.octets.specs.Bits.{bits_at, SameFirst};
ghost use Rattle.map_rules.specs.Shape.{first_broken};
ghost use Rattle.map_rules.specs.Address.{psid_of};

use crate::place::place;
use octets::{Addr4, Addr6, Prefix4, Prefix6, bits_of};
use port_set::PortSet;

/// A mapping rule (RFC 7597, section 5): the edges whose prefixes are the IPv6 prefix and `ea` bits more
/// share the addresses of the IPv4 prefix.
#[derive(Clone, Copy, Debug, PartialEq, Eq, Hash)]
pub struct Rule {
    /// The IPv6 prefix that those of the edges begin with.
    pub prefix6: Prefix6,
    /// The IPv4 prefix of the addresses that they share.
    pub prefix4: Prefix4,
    /// The number of EA bits: those of an address past the IPv4 prefix, then those of the PSID.
    pub ea: u8,
    /// The PSID offset in bits, at most 15.
    pub offset: u8,
    /// Whether it is a forwarding mapping rule too.
    pub forward: bool,
    ghost ea_most: { ea ≤ 32 },
    ghost ea_least: { 32 ≤ ea + prefix4.len },
    ghost edge_length: { prefix6.len + ea ≤ 64 },
    ghost offset_most: { offset ≤ 15 },
    ghost psid_most: { ea + prefix4.len - 32 ≤ 16 - offset },
}

/// What one edge holds: an IPv4 address, a port set, and its own MAP address.
#[derive(Clone, Copy, Debug, PartialEq, Eq, Hash)]
pub struct EdgeId {
    /// The IPv4 address, which other edges may hold with other ports.
    pub addr: Addr4,
    /// The ports of the address that are the edge's.
    pub ports: PortSet,
    /// The edge's MAP address.
    pub own6: Addr6,
}

/// Where the IPv4 address begins in a MAP address, and the PSID after it.
const ADDR_AT: u8 = 80;

const PSID_AT: u8 = 112;

impl Rule {
    ghost use Rattle.map_rules.specs.Rule.{psid_len, suffix_of, HasAddress, rule_address, ce6_of, IsSource, source_of, HasEdge, ea_bits, edge_address, edge_psid};

    /// The rule of these parts. It has five shape rules, and is refused with the number of the first that
    /// is broken: 1, at most 32 EA bits; 2, these and the IPv4 prefix at least 32 bits; 3, the IPv6 prefix
    /// and the EA bits at most 64; 4, an offset of at most 15; 5, a PSID of at most 16 less the offset.
    pub fn new(
        prefix6: Prefix6,
        prefix4: Prefix4,
        ea: u8,
        offset: u8,
        forward: bool,
    ) -> Result<Rule, u8>
        ensures refused { result_err result ≡ first_broken prefix6.len prefix4.len ea offset }
        ensures prefix6 { IfOk result (λ rule. rule.prefix6 ≡ prefix6) }
        ensures prefix4 { IfOk result (λ rule. rule.prefix4 ≡ prefix4) }
        ensures ea { IfOk result (λ rule. rule.ea ≡ ea) }
        ensures offset { IfOk result (λ rule. rule.offset ≡ offset) }
        ensures forward { IfOk result (λ rule. rule.forward ≡ forward) }
    {
        if ea > 32 {
            return Err(1);
        }
        if ea + prefix4.len < 32 {
            return Err(2);
        }
        if prefix6.len + ea > 64 {
            return Err(3);
        }
        if offset > 15 {
            return Err(4);
        }
        if ea + prefix4.len - 32 > 16 - offset {
            return Err(5);
        }
        Ok(Rule {
            prefix6,
            prefix4,
            ea,
            offset,
            forward,
        })
    }

    /// What the edge with this prefix holds, or `None` where the rule has no such edge.
    pub fn edge_of(&self, prefix: Prefix6) -> Option<EdgeId>
        ensures known { IsSome result ↔ HasEdge self.now prefix.bits prefix.len }
        ensures addr { IfSome result (λ e. e.addr.0 ≡ edge_address self.now prefix.bits) }
        ensures psid { IfSome result (λ e. e.ports.psid ≡ edge_psid self.now prefix.bits) }
        ensures shape { IfSome result (λ e. (e.ports.a ≡ self.now.offset) × (e.ports.k ≡ psid_len self.now)) }
        ensures own { IfSome result (λ e. IsSource self.now e.own6.0 e.addr.0 e.ports.psid) }
        ensures inside { IfSome result (λ e. SameFirst 128 prefix.len prefix.bits e.own6.0) }
    {
        if prefix.len != self.prefix6.len + self.ea || !self.prefix6.begins(&prefix) {
            return None;
        }
        let k = self.psid_len();
        let bits = bits_of(Addr6(prefix.bits), self.prefix6.len, self.ea);
        let addr = Addr4(self.prefix4.bits + (bits >> k) as u32);
        let psid = (bits % (1 << k)) as u16;
        Some(EdgeId {
            addr,
            ports: self.ports(psid),
            own6: self.address(addr, psid),
        })
    }

    /// The MAP address of this IPv4 address and port, or `None` where the address isn't of the rule or
    /// the port in none of its port sets.
    #[tactic(auto, unfolding(crate::specs::Rule::ce6_of))]
    pub fn ce6(&self, addr: Addr4, port: u16) -> Option<Addr6>
        ensures { MatchOption result (ce6_of self.now addr.0 port ≡ None) (λ s. ce6_of self.now addr.0 port ≡ Some s.0) }
    {
        let psid = self.psid_of(port);
        if !self.prefix4.has(addr) || !self.ports(psid).has(port) {
            return None;
        }
        Some(self.address(addr, psid))
    }

    /// The IPv4 address and port set whose MAP address this is as a whole, or `None` where there are none.
    pub fn source(&self, s: Addr6) -> Option<(Addr4, PortSet)>
        ensures found { IfSome result (λ r. IsSource self.now s.0 r.0.0 r.1.psid) }
        ensures shape { IfSome result (λ r. (r.1.a ≡ self.now.offset) × (r.1.k ≡ psid_len self.now)) }
        ensures none { IfNone result ((addr v : ℕ) → ¬ IsSource self.now s.0 addr v) }
        ensures value { option_map (λ r. (r.0.0, r.1.psid)) result ≡ source_of self.now s.0 }
    {
        let addr = Addr4(bits_of(s, ADDR_AT, 32) as u32);
        let psid = bits_of(s, PSID_AT, 16) as u16;
        if !self.prefix4.has(addr) || u32::from(psid) >= 1 << self.psid_len() {
            return None;
        }
        if self.address(addr, psid) != s {
            return None;
        }
        Some((addr, self.ports(psid)))
    }

    /// How many bits a PSID has.
    fn psid_len(&self) -> u8
        ensures { result ≡ psid_len self.now }
    {
        self.ea + self.prefix4.len - 32
    }

    /// The port set of this PSID.
    fn ports(&self, psid: u16) -> PortSet
        requires { psid < 2 ^ psid_len self.now }
        ensures offset { result.a ≡ self.now.offset }
        ensures length { result.k ≡ psid_len self.now }
        ensures psid { result.psid ≡ psid }
    {
        PortSet {
            a: self.offset,
            k: self.psid_len(),
            psid,
        }
    }

    /// The PSID of the port sets in which a port can stand.
    fn psid_of(&self, port: u16) -> u16
        ensures value { result ≡ psid_of self.now.offset (psid_len self.now) port }
        ensures small { result < 2 ^ psid_len self.now }
    {
        let (offset, k) = (self.offset, self.psid_len());
        if k == 0 {
            return 0;
        }
        ((u32::from(port) >> (16 - offset - k)) % (1 << k)) as u16
    }

    /// The MAP address of this IPv4 address and PSID.
    fn address(&self, addr: Addr4, psid: u16) -> Addr6
        requires { psid < 2 ^ psid_len self.now }
        ensures { result.0 ≡ rule_address self.now addr.0 psid }
    {
        let suffix = u64::from(addr.0) % (1 << (32 - self.prefix4.len));
        let ea = u128::from((suffix << self.psid_len()) + u64::from(psid));
        let addr = place(u128::from(addr.0), ADDR_AT, 32);
        let psid = place(u128::from(psid), PSID_AT, 16);
        Addr6(self.prefix6.bits + place(ea, self.prefix6.len, self.ea) + addr + psid)
    }
}

ghost use Rattle.std.specs.Prelude.{◌≡◌, ℕ, ◌-◌, ◌+◌, ◌^◌, ◌<◌, ◌≤◌, ◌↔◌, IsTrue, IsOk, IfOk, IsSome, IfSome, Some, ◌⊎◌};
ghost use Rattle.port_set.specs.PortSet.{in_set, is_claimable, count_below, claimable_count, rank_of, begins_run, IsRun, run_count};
ghost use Rattle.port_set.specs.Layout.{HasLayout};

use crate::layout::Layout;

/// The offset is over 15, the PSID length is over 16 less the offset, or the PSID doesn't fit its length.
#[derive(Debug, Clone, Copy, PartialEq, Eq, Hash)]
pub struct BadPorts;

/// The ports of one customer edge (RFC 7597, section 5.1). Two are equal exactly where offset, PSID
/// length and PSID are.
#[derive(Clone, Copy, Debug, PartialEq, Eq, Hash)]
pub struct PortSet {
    /// The offset: how many bits of a port stand before the PSID, 0 to 15.
    pub a: u8,
    /// The length of the PSID in bits, at most 16 less the offset.
    pub k: u8,
    /// The PSID, below 2^k.
    pub psid: u16,
    ghost offset: { a ≤ 15 },
    ghost length: { k ≤ 16 - a },
    ghost fits: { psid < 2 ^ k },
}

/// The layout of the set of all ports.
const ALL_PORTS: Layout = Layout {
    first: 0,
    blocks: 1,
    block: 65536,
    start: 0,
    run: 65536,
};

impl PortSet {
    /// The set of this offset, PSID length and PSID. Refused exactly where one is out of its range.
    pub fn new(a: u8, k: u8, psid: u16) -> Result<PortSet, BadPorts>
        ensures valid { IsOk result ↔ ((a ≤ 15) × (k ≤ 16 - a) × (psid < 2 ^ k)) }
        ensures offset { IfOk result (λ set. set.a ≡ a) }
        ensures length { IfOk result (λ set. set.k ≡ k) }
        ensures psid { IfOk result (λ set. set.psid ≡ psid) }
    {
        if a > 15 || k > 16 - a || u32::from(psid) >= 1 << k {
            return Err(BadPorts);
        }
        Ok(PortSet { a, k, psid })
    }

    /// Whether the port is in the set.
    pub fn has(&self, x: u16) -> bool
        ensures { IsTrue result ↔ IsTrue (in_set self.now.a self.now.k self.now.psid x) }
    {
        let (a, k, psid) = (self.a, self.k, self.psid);
        if k == 0 {
            return true;
        }
        if a > 0 && u32::from(x) < 1 << (16 - a) {
            return false;
        }
        let (port, psid) = (u32::from(x), u32::from(psid));
        (port >> (16 - a - k)) % (1 << k) == psid
    }

    /// Whether the edge may claim the port: it is in the set and isn't 0.
    pub fn claimable(&self, x: u16) -> bool
        ensures { IsTrue result ↔ IsTrue (is_claimable self.now.a self.now.k self.now.psid x) }
    {
        x != 0 && self.has(x)
    }

    /// How many claimable ports the set has.
    pub fn count(&self) -> u32
        ensures { result ≡ claimable_count self.now.a self.now.k self.now.psid }
    {
        self.layout().ports() - u32::from(self.has(0))
    }

    /// How many claimable ports are below this one, or `None` where it isn't claimable.
    pub fn rank(&self, x: u16) -> Option<u32>
        ensures value { result ≡ rank_of self.now.a self.now.k self.now.psid x }
        ensures below { IfSome result (λ i. i < claimable_count self.now.a self.now.k self.now.psid) }
    {
        if !self.claimable(x) {
            return None;
        }
        Some(self.layout().ports_below(x) - u32::from(self.has(0)))
    }

    /// The claimable port of this rank, or `None` where there are no more than `i` claimable ports.
    pub fn at(&self, i: u32) -> Option<u16>
        ensures found { IfSome result (λ x. rank_of self.now.a self.now.k self.now.psid x ≡ Some i) }
        ensures inverse { (x : ℕ) → x < 65536 → rank_of self.now.a self.now.k self.now.psid x ≡ Some i → result ≡ Some x }
        ensures known { IsSome result ↔ (i < claimable_count self.now.a self.now.k self.now.psid) }
    {
        if i >= self.count() {
            return None;
        }
        Some(self.layout().port(i + u32::from(self.has(0))))
    }

    /// The first and last port of the `i`-th run of ports of the set, by rising ports from 0, or `None`
    /// where there are no more than `i` runs.
    pub fn range(&self, i: u32) -> Option<(u16, u16)>
        ensures run { IfSome result (λ r. IsRun (in_set self.now.a self.now.k self.now.psid) r.0 r.1) }
        ensures index { IfSome result (λ r. count_below (begins_run (in_set self.now.a self.now.k self.now.psid)) r.0 ≡ i) }
        ensures known { IsSome result ↔ (i < run_count self.now.a self.now.k self.now.psid) }
    {
        let layout = self.layout();
        if i >= layout.runs() {
            return None;
        }
        let first = layout.port(i * layout.run);
        Some((first, first + (layout.run - 1) as u16))
    }

    /// How the set lies among the ports.
    fn layout(&self) -> Layout
        ensures lies { HasLayout (in_set self.now.a self.now.k self.now.psid)
            result.first result.blocks result.block result.start result.run }
        ensures apart { (result.run < result.block) ⊎ (result.blocks ≡ 1) }
    {
        let (a, k, psid) = (self.a, self.k, self.psid);
        if k == 0 {
            return ALL_PORTS;
        }
        let run = numbers_of(16 - a - k);
        Layout {
            first: u32::from(a > 0),
            blocks: numbers_of(a),
            block: numbers_of(16 - a),
            start: u32::from(psid) * run,
            run,
        }
    }
}

/// How many numbers there are of that many bits.
fn numbers_of(bits: u8) -> u32
    requires { bits ≤ 16 }
    ensures { result ≡ 2 ^ bits }
{
    1 << bits
}
